//! The bounds with which settling begins.
ghost use Rattle.std.specs.Prelude.{◌≡◌, ◌<◌, IfOk, length};
ghost use Rattle.cvc_law.specs.Conduction.{kept_within};
ghost use Rattle.cvc_law.specs.Network.{nets, fixed_at, floor_of, ceiling_of, IsCircuit};
ghost use Rattle.cvc_law.specs.Family.{interval_at};
ghost use Rattle.cvc_serial.specs.Starting.{AreStarted, started};

use cvc_base::{Mv, NetId, NoMemory};
use cvc_law::{Circuit, Family, Interval};
use std::alloc::Global;

const UNKNOWN: Interval = Interval {
    low: None,
    high: None,
};

/// The bound, if it is known and lies from the floor to the ceiling.
fn kept(circuit: &Circuit, bound: Option<Mv>) -> Option<Mv>
    ensures { result ≡ kept_within (floor_of circuit.now) (ceiling_of circuit.now) bound }
{
    let value = bound?;
    if circuit.floor()?.get() <= value.get() && value.get() <= circuit.ceiling()?.get() {
        Some(value)
    } else {
        None
    }
}

/// What settling begins with at a net, where this interval is given.
fn started(circuit: &Circuit, n: NetId, given: Interval) -> Interval
    requires { n.0 < nets circuit.now }
    ensures { result ≡ started circuit.now (fixed_at circuit.now n.0) given }
{
    match circuit.fixed(n) {
        None => Interval {
            low: kept(circuit, given.low),
            high: kept(circuit, given.high),
        },
        Some(fixed) => Interval {
            low: Some(fixed.low),
            high: Some(fixed.high),
        },
    }
}

/// What a family of this many nets says of a net: nothing of one that it doesn't have.
#[tactic(auto, using(std::proofs::lemmas::List::get_or_past))]
fn given(family: &Family, known: u32, n: NetId) -> Interval
    requires { known ≡ length family.now }
    ensures { result ≡ interval_at family.now n.0 }
{
    if n.0 < known {
        family.interval(n)
    } else {
        UNKNOWN
    }
}

/// What settling begins with, where a family of this many nets is given.
pub(crate) fn starting(
    alloc: Global,
    circuit: &Circuit,
    family: &Family,
    known: u32,
) -> Result<Vec<Interval>, NoMemory>
    requires { known ≡ length family.now }
    ensures started { IfOk result (λ bounds. AreStarted circuit.now family.now bounds.items) }
    ensures circuit { IsCircuit circuit.now.fixed circuit.now.devices }
{
    let mut bounds = vec![in alloc; UNKNOWN; circuit.nets() as usize]?;
    for n in 0..circuit.nets() {
        bounds[n as usize] = started(circuit, NetId(n), given(family, known, NetId(n)));
    }
    Ok(bounds)
}
