//! A log is replayed: each line is held against the bounds that the lines before it made.
ghost use Rattle.std.specs.Prelude.{◌≡◌, ◌<◌, ◌^◌, ◌↔◌, Some, IfNone, IfOk, IfSome, IsTrue, length, map};
ghost use Rattle.std.specs.Bool.{OnFalse, OnTrue};
ghost use Rattle.cvc_law.specs.Network.{nets, devices, fixed_at, lesser, greater, IsCircuit};
ghost use Rattle.cvc_law.specs.Reach.{declared_interval};
ghost use Rattle.cvc_serial.specs.Derivation.{IsJustified, declared_family, taking_in, with_line};
ghost use Rattle.cvc_chain.specs.Replay.{IsReplay, IsReplayed, StopsAt};

use crate::LogLine;
use cvc_base::{DevId, Mv, NetId, NoMemory};
use cvc_law::{Circuit, Family, Interval, gives};
use cvc_serial::laws::a_justified_line_is_of_a_device;
use std::alloc::Global;

/// What became of a log that was replayed.
#[derive(Drop)]
pub(crate) enum Replayed {
    /// Each line is justified, and this is the log's family.
    Whole(Family),
    /// The first line, from 1, that isn't justified.
    Line(u32),
}

/// The lesser of a voltage and another, if there is another.
fn lesser(x: Mv, other: Option<Mv>) -> Option<Mv>
    ensures { result ≡ lesser x other }
{
    match other {
        Some(y) if y.get() < x.get() => Some(y),
        _ => Some(x),
    }
}

/// The greater of a voltage and another, if there is another.
fn greater(x: Mv, other: Option<Mv>) -> Option<Mv>
    ensures { result ≡ greater x other }
{
    match other {
        Some(y) if x.get() <= y.get() => Some(y),
        _ => Some(x),
    }
}

/// The interval as wide as before, and as the value.
fn taking_in(interval: Interval, slot: u8, value: Mv) -> Interval
    ensures { result ≡ taking_in interval slot value }
{
    if slot % 2 == 0 {
        Interval {
            low: lesser(value, interval.low),
            high: interval.high,
        }
    } else {
        Interval {
            low: interval.low,
            high: greater(value, interval.high),
        }
    }
}

/// Whether the line, of a device and slot that are there, is justified on these bounds.
fn is_given(circuit: &Circuit, bounds: &[Interval], line: &LogLine) -> bool
    requires device { line.now.device < devices circuit.now }
    requires slot { line.now.slot < 4 }
    requires bounds { length bounds.now ≡ nets circuit.now }
    ensures { IsTrue result ↔ IsJustified circuit.now bounds.now line.now }
{
    let d = DevId(line.device);
    let conductor = circuit.conductor(d);
    let free = circuit.fixed(conductor.target(line.slot)).is_none();
    let reads = conductor.reads(bounds);
    free && gives(circuit, d, line.slot, &reads) == Some(line.value.get())
}

/// Whether the line is justified on these bounds.
fn is_justified(circuit: &Circuit, bounds: &[Interval], line: &LogLine) -> bool
    requires bounds { length bounds.now ≡ nets circuit.now }
    ensures { IsTrue result ↔ IsJustified circuit.now bounds.now line.now }
{
    a_justified_line_is_of_a_device();
    if line.device >= circuit.devices() || line.slot >= 4 {
        return false;
    }
    is_given(circuit, bounds, line)
}

/// Widens the bounds by a line.
fn take_line(circuit: &Circuit, bounds: &mut [Interval], line: &LogLine)
    requires device { line.now.device < devices circuit.now }
    requires bounds { length bounds.old ≡ nets circuit.now }
    ensures { bounds.new ≡ with_line circuit.now bounds.old line.now }
{
    let net = circuit.conductor(DevId(line.device)).target(line.slot).0 as usize;
    bounds[net] = taking_in(bounds[net], line.slot, line.value);
}

/// What is known of a net by its declaration alone.
fn declared(circuit: &Circuit, n: NetId) -> Interval
    requires { n.0 < nets circuit.now }
    ensures { result ≡ declared_interval (fixed_at circuit.now n.0) }
{
    match circuit.fixed(n) {
        None => Interval {
            low: None,
            high: None,
        },
        Some(fixed) => Interval {
            low: Some(fixed.low),
            high: Some(fixed.high),
        },
    }
}

/// What is known by the declarations alone.
fn declared_bounds(alloc: Global, circuit: &Circuit) -> Result<Vec<Interval>, NoMemory>
    ensures { IfOk result (λ bounds. bounds.items ≡ declared_family circuit.now) }
{
    let unknown = Interval {
        low: None,
        high: None,
    };
    let mut bounds = vec![in alloc; unknown; circuit.nets() as usize]?;
    for n in 0..circuit.nets() {
        bounds[n as usize] = declared(circuit, NetId(n));
    }
    Ok(bounds)
}

// Takes a line, where it is justified on these bounds.
fn take_justified(circuit: &Circuit, bounds: &mut [Interval], line: &LogLine) -> bool
    requires { length bounds.old ≡ nets circuit.now }
    ensures taken { OnTrue result (IsJustified circuit.now bounds.old line.now × (bounds.new ≡ with_line circuit.now bounds.old line.now)) }
    ensures left { OnFalse result (IsJustified circuit.now bounds.old line.now → ⊥) }
{
    a_justified_line_is_of_a_device();
    if !is_justified(circuit, bounds, line) {
        return false;
    }
    take_line(circuit, bounds, line);
    true
}

// Takes the lines of the log, up to the first that isn't justified.
fn take_lines(circuit: &Circuit, bounds: &mut [Interval], log: &[LogLine]) -> Option<u32>
    requires declared { bounds.old ≡ declared_family circuit.now }
    requires few { length log.now < 2 ^ 32 }
    ensures none { IfNone result (IsReplayed circuit.now log.now bounds.new) }
    ensures some { IfSome result (StopsAt circuit.now log.now) }
    ensures circuit { IsCircuit circuit.now.fixed circuit.now.devices }
{
    let _ = circuit.nets();
    for (place, line) in log.iter().enumerate() {
        if !take_justified(circuit, bounds, line) {
            return Some(place as u32 + 1);
        }
    }
    None
}

/// The family of a log, or the first line that isn't justified.
pub(crate) fn replay(
    alloc: Global,
    circuit: &Circuit,
    log: &[LogLine],
) -> Result<Replayed, NoMemory>
    requires { length log.now < 2 ^ 32 }
    ensures replayed { IfOk result (IsReplay circuit.now log.now) }
    ensures circuit { IfOk result (λ _. IsCircuit circuit.now.fixed circuit.now.devices) }
{
    let mut bounds = declared_bounds(alloc, circuit)?;
    match take_lines(circuit, bounds.as_mut_slice(), log) {
        Some(line) => Ok(Replayed::Line(line)),
        None => Ok(Replayed::Whole(Family::new(bounds))),
    }
}
