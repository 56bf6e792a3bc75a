//! The verdict on a log and a report.
ghost use Rattle.std.specs.Prelude.{◌≡◌, ◌<◌, ◌^◌, IfNone, IfOk, IfSome, length, map};
ghost use Rattle.cvc_law.specs.Bound.{IsBound};
ghost use Rattle.cvc_law.specs.Least.{IsClosed};
ghost use Rattle.cvc_law.specs.Network.{nets as net_count};
ghost use Rattle.cvc_chain.specs.Verdict.{IsFirstNotClosed, IsOnReport, IsRightWhereYes, Says};

use crate::Log;
use crate::matching::first_difference;
use crate::replay::{Replayed, replay};
use cvc_base::{DevId, NoMemory};
use cvc_flat::Flat;
use cvc_judge::list_all;
use cvc_law::{Circuit, Family, closed_at};
use cvc_serial::laws::a_complete_justified_log_has_the_least_family;
use std::alloc::Global;

/// What is said of a log and a report.
#[derive(Clone, Copy, Debug, PartialEq, Eq)]
pub enum Verdict {
    /// The report is that of the least voltage family.
    Yes,
    /// The first line, from 1, that isn't justified.
    Line(u32),
    /// Each line is justified, and this is the first device at which their family isn't closed.
    Device(DevId),
    /// The log has the least family, and this is the first place, from 0, at which the report differs from that family's. An end differs from every byte.
    Byte(u64),
}

// The first device at which the family isn't closed.
fn first_not_closed(circuit: &Circuit, family: &Family) -> Option<DevId>
    requires { length family.now ≡ net_count circuit.now }
    ensures none { IfNone result (IsClosed circuit.now family.now) }
    ensures some { IfSome result (λ d. IsFirstNotClosed circuit.now family.now d.0) }
{
    for d in 0..circuit.devices() {
        if !closed_at(circuit, family, DevId(d)) {
            return Some(DevId(d));
        }
    }
    None
}

// The verdict on a report, of a family that a log has.
fn verdict_on_report(
    alloc: Global,
    circuit: &Circuit,
    flat: &Flat,
    family: &Family,
    nets: bool,
    report: &[u8],
) -> Result<Verdict, NoMemory>
    requires bound { IsBound (length flat.now.list.nets) (map (λ d. d.pins) flat.now.list.devices) circuit.now }
    requires family { length family.now ≡ net_count circuit.now }
    ensures { IfOk result (IsOnReport circuit.now flat.now.list family.now nets report.now) }
{
    if let Some(d) = first_not_closed(circuit, family) {
        return Ok(Verdict::Device(d));
    }
    let findings = list_all(alloc, circuit, family)?;
    match first_difference(circuit, flat, family, &findings, nets, report) {
        Some(place) => Ok(Verdict::Byte(place as u64)),
        None => Ok(Verdict::Yes),
    }
}

/// The verdict on a log and the bytes of a report, with net lines where asked for. The circuit is bound from the flat list. It builds no report to compare
/// with, takes time linear in the log and the report, and always returns.
pub fn verify(
    alloc: Global,
    circuit: &Circuit,
    flat: &Flat,
    log: &Log,
    nets: bool,
    report: &[u8],
) -> Result<Verdict, NoMemory>
    requires bound { IsBound (length flat.now.list.nets) (map (λ d. d.pins) flat.now.list.devices) circuit.now }
    requires few { length log.now < 2 ^ 32 }
    ensures says { IfOk result (Says circuit.now flat.now.list log.now nets report.now) }
    ensures right { IfOk result (IsRightWhereYes circuit.now flat.now.list nets report.now) }
{
    a_complete_justified_log_has_the_least_family();
    match replay(alloc, circuit, log.as_slice())? {
        Replayed::Line(line) => Ok(Verdict::Line(line)),
        Replayed::Whole(family) => {
            verdict_on_report(alloc, circuit, flat, &family, nets, report)
        }
    }
}
