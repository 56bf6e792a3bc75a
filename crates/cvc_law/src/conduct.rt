//! What a device gives to the net at one of its ends.
ghost use Rattle.std.specs.Prelude.{◌≡◌, ◌<◌};
ghost use Rattle.cvc_law.specs.Network.{devices};
ghost use Rattle.cvc_law.specs.Conduction.{low_from, high_from, diode_gives, end_gives, offered, kept_within, given};
ghost use Rattle.cvc_law.specs.Conductor.{volts_of};
ghost use Rattle.cvc_law.specs.Reach.{device_at};

use crate::{Circuit, Interval, Reads};
use cvc_base::{DevId, Kind, Mv};

/// The millivolts of a voltage that may be unknown.
fn millivolts(voltage: Option<Mv>) -> Option<i64>
    ensures { result ≡ voltage }
{
    voltage.map(|v| v.get())
}

/// An nmos hands on a low where its gate can be high enough for it.
fn nmos_low(threshold: Mv, near: &Interval, gate: &Interval) -> Option<i64>
    ensures { result ≡ low_from Kind.Nmos (volts_of threshold) near.now gate.now }
{
    let low = near.low?.get();
    let gate_high = gate.high?.get();
    (low + threshold.get() <= gate_high).then_some(low)
}

/// A pmos hands on a low, but none lower than its lowest gate and the threshold.
fn pmos_low(threshold: Mv, near: &Interval, gate: &Interval) -> Option<i64>
    ensures { result ≡ low_from Kind.Pmos (volts_of threshold) near.now gate.now }
{
    let low = near.low?.get();
    let gate_low = gate.low?.get();
    Some(low.max(gate_low + threshold.get()))
}

/// An nmos hands on a high, but none higher than its highest gate less the threshold.
fn nmos_high(threshold: Mv, near: &Interval, gate: &Interval) -> Option<i64>
    ensures { result ≡ high_from Kind.Nmos (volts_of threshold) near.now gate.now }
{
    let high = near.high?.get();
    let gate_high = gate.high?.get();
    Some(high.min(gate_high - threshold.get()))
}

/// A pmos hands on a high where its gate can be low enough for it.
fn pmos_high(threshold: Mv, near: &Interval, gate: &Interval) -> Option<i64>
    ensures { result ≡ high_from Kind.Pmos (volts_of threshold) near.now gate.now }
{
    let high = near.high?.get();
    let gate_low = gate.low?.get();
    (gate_low + threshold.get() <= high).then_some(high)
}

/// The low that a device hands on from the net at its near end.
fn low_from(kind: Kind, voltage: Mv, near: &Interval, gate: &Interval) -> Option<i64>
    ensures { result ≡ low_from kind (volts_of voltage) near.now gate.now }
{
    match kind {
        Kind::Resistor | Kind::Inductor => millivolts(near.low),
        Kind::Nmos => nmos_low(voltage, near, gate),
        Kind::Pmos => pmos_low(voltage, near, gate),
        Kind::Diode | Kind::Capacitor | Kind::Bipolar => None,
    }
}

/// The high that a device hands on from the net at its near end.
fn high_from(kind: Kind, voltage: Mv, near: &Interval, gate: &Interval) -> Option<i64>
    ensures { result ≡ high_from kind (volts_of voltage) near.now gate.now }
{
    match kind {
        Kind::Resistor | Kind::Inductor => millivolts(near.high),
        Kind::Nmos => nmos_high(voltage, near, gate),
        Kind::Pmos => pmos_high(voltage, near, gate),
        Kind::Diode | Kind::Capacitor | Kind::Bipolar => None,
    }
}

/// A diode gives its cathode a high, by slot 1, and its anode a low, by slot 2.
fn diode_gives(voltage: Mv, slot: u8, reads: &Reads) -> Option<i64>
    requires { slot < 4 }
    ensures { result ≡ diode_gives (volts_of voltage) slot reads.now }
{
    match slot {
        1 => Some(reads.a.high?.get() - voltage.get()),
        2 => Some(reads.b.low?.get() + voltage.get()),
        _ => None,
    }
}

/// What any other device gives by a slot.
fn end_gives(kind: Kind, voltage: Mv, slot: u8, reads: &Reads) -> Option<i64>
    requires { slot < 4 }
    ensures { result ≡ end_gives kind (volts_of voltage) slot reads.now }
{
    match slot {
        0 => low_from(kind, voltage, &reads.a, &reads.g),
        1 => high_from(kind, voltage, &reads.a, &reads.g),
        2 => low_from(kind, voltage, &reads.b, &reads.g),
        _ => high_from(kind, voltage, &reads.b, &reads.g),
    }
}

/// What a device gives by a slot, before the floor and the ceiling are looked at.
fn offered(kind: Kind, voltage: Mv, slot: u8, reads: &Reads) -> Option<i64>
    requires { slot < 4 }
    ensures { result ≡ offered kind (volts_of voltage) slot reads.now }
{
    match kind {
        Kind::Diode => diode_gives(voltage, slot, reads),
        Kind::Nmos
        | Kind::Pmos
        | Kind::Resistor
        | Kind::Capacitor
        | Kind::Inductor
        | Kind::Bipolar => end_gives(kind, voltage, slot, reads),
    }
}

/// The value, if it lies from the floor to the ceiling.
fn kept_within(floor: Option<Mv>, ceiling: Option<Mv>, value: Option<i64>) -> Option<i64>
    ensures { result ≡ kept_within floor ceiling value }
{
    let floor = floor?.get();
    let ceiling = ceiling?.get();
    let value = value?;
    (floor <= value && value <= ceiling).then_some(value)
}

/// The value in millivolts that a slot of the device gives on these reads.
/// Slots 0 and 1 give a low and a high to the end b, slots 2 and 3 a low and a high to the end a.
pub fn gives(circuit: &Circuit, d: DevId, slot: u8, reads: &Reads) -> Option<i64>
    requires device { d.0 < devices circuit.now }
    requires slot { slot < 4 }
    ensures { result ≡ given circuit.now (device_at circuit.now d.0) slot reads.now }
{
    let conductor = circuit.conductor(d);
    let value = offered(conductor.kind, conductor.voltage, slot, reads);
    kept_within(circuit.floor(), circuit.ceiling(), value)
}
