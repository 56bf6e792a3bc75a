//! Circuits from tables, and their findings.
ghost use Rattle.std.specs.Prelude.{◌≡◌, ℕ, ◌<◌, ◌≤◌, pos, ◌≤ℤ◌, IsTrue, IfOk, length};
ghost use Rattle.cvc_law.specs.Network.{pin, pins_of, HasPins, IsDevice, IsCircuit};
ghost use Rattle.cvc_tests_settle.specs.TestCircuits.{AreOnNets, AreDevices, AreOrdered};

use arrayvec::ArrayVec;
use cvc_base::{Kind, Mv, NetId, NoMemory, Volts};
use cvc_law::{Circuit, Device, Family, Fixed, Interval};
use std::alloc::Global;

/// What is known of a net, in millivolts.
pub type Bounds = (Option<i64>, Option<i64>);

pub const UNKNOWN: Bounds = (None, None);

pub fn within(low: i64, high: i64) -> Bounds {
    (Some(low), Some(high))
}

pub fn at(v: i64) -> Bounds {
    within(v, v)
}

/// A model in millivolts: its threshold at both corners, its drop, and the one limit that it puts on each pair of pins of a MOS,
/// or on gate and source alone.
#[derive(Clone, Copy)]
pub struct Model {
    pub kind: Kind,
    pub threshold: i64,
    pub weak: i64,
    pub drop: i64,
    pub gate_source: Option<i64>,
    pub others: Option<i64>,
}

pub fn plain(kind: Kind) -> Model {
    Model {
        kind,
        threshold: 0,
        weak: 0,
        drop: 0,
        gate_source: None,
        others: None,
    }
}

pub fn mos(kind: Kind, threshold: i64, weak: i64) -> Model {
    Model {
        threshold,
        weak,
        ..plain(kind)
    }
}

/// A card: its model and the nets of its pins.
#[derive(Clone, Copy)]
pub struct Card {
    pub model: Model,
    pub pins: [u32; 4],
}

pub fn resistor(a: u32, b: u32) -> Card {
    Card {
        model: plain(Kind::Resistor),
        pins: [a, b, 0, 0],
    }
}

fn limit(voltage: Option<i64>) -> Option<Mv> {
    match voltage {
        Some(v) => Mv::new(v),
        None => None,
    }
}

fn volts_of(model: &Model) -> Option<Volts> {
    let others = limit(model.others);
    Some(Volts {
        threshold: Mv::new(model.threshold)?,
        weak: Mv::new(model.weak)?,
        drop: Mv::new(model.drop)?,
        junction: Mv::new(0)?,
        vgs: limit(model.gate_source),
        vgd: others,
        vds: others,
        vbs: others,
        vbd: others,
        vbg: others,
    })
}

fn pin_count(kind: Kind) -> usize
    ensures { result ≡ pins_of kind }
{
    match kind {
        Kind::Nmos | Kind::Pmos => 4,
        Kind::Bipolar => 3,
        Kind::Resistor | Kind::Diode | Kind::Capacitor | Kind::Inductor => 2,
    }
}

fn device_of(card: &Card) -> Option<Device> {
    let kind = card.model.kind;
    let mut pins = ArrayVec::new();
    for n in &card.pins[..pin_count(kind)] {
        pins.try_push(NetId(*n)).ok()?;
    }
    Some(Device {
        kind,
        pins,
        volts: volts_of(&card.model)?,
    })
}

fn fixed_of(declared: Bounds) -> Option<Fixed> {
    Some(Fixed {
        low: Mv::new(declared.0?)?,
        high: Mv::new(declared.1?)?,
    })
}

/// Whether each pin is on one of this many nets.
fn are_on_nets(net_count: usize, pins: &[NetId]) -> bool
    ensures { IsTrue result → AreOnNets net_count pins.now }
{
    for n in pins {
        if n.0 as usize >= net_count {
            return false;
        }
    }
    true
}

/// Whether the device has as many pins as its kind, each on one of this many nets.
fn are_pins(net_count: usize, device: &Device) -> bool
    ensures count { IsTrue result → HasPins device.now }
    ensures nets { IsTrue result → (i : ℕ) → i < pins_of device.now.kind → pin device.now i < net_count }
{
    if device.pins.len() != pin_count(device.kind) {
        return false;
    }
    are_on_nets(net_count, device.pins.as_slice())
}

/// Whether the model's voltages may stand in a circuit.
fn are_volts(volts: &Volts) -> bool
    ensures drop { IsTrue result → pos 0 ≤ℤ volts.now.drop }
    ensures junction { IsTrue result → pos 0 ≤ℤ volts.now.junction }
    ensures threshold { IsTrue result → pos 0 ≤ℤ volts.now.threshold }
    ensures corners { IsTrue result → volts.now.threshold ≤ℤ volts.now.weak }
{
    if volts.drop.get() < 0 {
        return false;
    }
    if volts.junction.get() < 0 {
        return false;
    }
    if volts.threshold.get() > volts.weak.get() {
        return false;
    }
    volts.threshold.get() >= 0
}

/// Whether the device may stand in a circuit of this many nets.
fn is_device(net_count: usize, device: &Device) -> bool
    ensures { IsTrue result → IsDevice net_count device.now }
{
    if !are_pins(net_count, device) {
        return false;
    }
    are_volts(&device.volts)
}

/// Whether each device may stand in a circuit of this many nets.
fn are_devices(net_count: usize, devices: &[Device]) -> bool
    ensures { IsTrue result → AreDevices net_count devices.now }
{
    for device in devices {
        if !is_device(net_count, device) {
            return false;
        }
    }
    true
}

/// Whether no low lies above its high.
fn are_ordered(fixed: &[Option<Fixed>]) -> bool
    ensures { IsTrue result → AreOrdered fixed.now }
{
    for declared in fixed {
        if let Some(declared) = declared {
            if declared.low.get() > declared.high.get() {
                return false;
            }
        }
    }
    true
}

/// Whether these nets and devices make a circuit.
fn is_circuit(fixed: &[Option<Fixed>], devices: &[Device]) -> bool
    ensures { IsTrue result → IsCircuit fixed.now devices.now }
{
    if fixed.len() > 1_000_000 {
        return false;
    }
    if devices.len() > 500_000 {
        return false;
    }
    if !are_ordered(fixed) {
        return false;
    }
    are_devices(fixed.len(), devices)
}

/// The circuit of these declared bounds and as many cards, taken from the table again and again. `None` where they make no circuit.
pub fn circuit_of(
    alloc: Global,
    declared: &[Bounds],
    cards: &[Card],
    count: usize,
) -> Result<Option<Circuit>, NoMemory> {
    let mut fixed = Vec::new(alloc);
    for bounds in declared {
        fixed.push(fixed_of(*bounds))?;
    }
    let mut devices = Vec::new(alloc);
    for _ in 0..count / cards.len().max(1) {
        for card in cards {
            if let Some(device) = device_of(card) {
                devices.push(device)?;
            }
        }
    }
    if devices.len() < count || !is_circuit(&fixed, &devices) {
        return Ok(None);
    }
    Ok(Some(Circuit::new(alloc, fixed, devices)?))
}

/// The family of these bounds.
pub fn family_of(alloc: Global, settled: &[Bounds]) -> Result<Family, NoMemory>
    ensures { IfOk result (λ f. length f ≡ length settled.now) }
{
    let mut intervals = Vec::new(alloc);
    for bounds in settled {
        intervals.push(Interval {
            low: limit(bounds.0),
            high: limit(bounds.1),
        })?;
    }
    Ok(Family::new(intervals))
}

/// The bounds of each net of a family, in millivolts.
pub fn bounds_of(alloc: Global, family: &Family, nets: u32) -> Result<Vec<Bounds>, NoMemory>
    requires { nets ≤ length family.now }
{
    let mut all = Vec::new(alloc);
    for n in 0..nets {
        let interval = family.interval(NetId(n));
        all.push((
            interval.low.map(|v| v.get()),
            interval.high.map(|v| v.get()),
        ))?;
    }
    Ok(all)
}
