//! Whether a voltage family is closed at a device.
ghost use Rattle.std.specs.Prelude.{◌≡◌, ◌<◌, ◌↔◌, length, IsTrue};
ghost use Rattle.cvc_law.specs.Network.{nets, devices};
ghost use Rattle.cvc_law.specs.Least.{Covers, IsSlotClosed, IsClosedAtNumber};
ghost use Rattle.cvc_law.specs.Reach.{device_at};

use crate::{Circuit, Family, Interval, Reads, gives};
use cvc_base::DevId;

/// Whether a value that a slot gave lies in the interval: even slots give a low, odd ones a high.
fn covers(interval: &Interval, slot: u8, value: i64) -> bool
    ensures { IsTrue result ↔ Covers interval.now slot value }
{
    if slot % 2 == 0 {
        interval.low.is_some_and(|low| low.get() <= value)
    } else {
        interval.high.is_some_and(|high| value <= high.get())
    }
}

/// Whether the family covers what this slot gives.
fn is_slot_closed(circuit: &Circuit, family: &Family, d: DevId, slot: u8, reads: &Reads) -> bool
    requires device { d.0 < devices circuit.now }
    requires slot { slot < 4 }
    requires family { length family.now ≡ nets circuit.now }
    ensures { IsTrue result ↔ IsSlotClosed circuit.now family.now (device_at circuit.now d.0) slot reads.now }
{
    let to = circuit.conductor(d).target(slot);
    if circuit.fixed(to).is_some() {
        return true;
    }
    match gives(circuit, d, slot, reads) {
        None => true,
        Some(value) => covers(&family.interval(to), slot, value),
    }
}

/// Whether no slot of the device gives an undeclared net a value outside the family.
pub fn closed_at(circuit: &Circuit, family: &Family, d: DevId) -> bool
    requires device { d.0 < devices circuit.now }
    requires family { length family.now ≡ nets circuit.now }
    ensures { IsTrue result ↔ IsClosedAtNumber circuit.now family.now d.0 }
{
    let reads = family.reads(circuit.device(d));
    for slot in 0..4 {
        if !is_slot_closed(circuit, family, d, slot, &reads) {
            return false;
        }
    }
    true
}
