//! How many bounds a device reads, which ones, and to which net it gives, by the device's number.
ghost use Rattle.std.specs.Prelude.{◌≡◌, ◌<◌};
ghost use Rattle.cvc_law.specs.Network.{nets, devices};
ghost use Rattle.cvc_law.specs.Conduction.{target};
ghost use Rattle.cvc_law.specs.Reach.{device_at, read_place, read_count, width};

use cvc_base::{DevId, NetId};
use cvc_law::Circuit;

/// How many bounds a device reads.
pub(crate) fn read_count(circuit: &Circuit, d: DevId) -> u8
    requires { d.0 < devices circuit.now }
    ensures { result ≡ read_count (device_at circuit.now d.0).kind }
{
    circuit.conductor(d).read_count()
}

/// The bound that a device's read reads.
pub(crate) fn read_place(circuit: &Circuit, d: DevId, read: u8) -> usize
    requires { d.0 < devices circuit.now }
    ensures place { result ≡ read_place (device_at circuit.now d.0) read }
    ensures inside { result < width circuit.now }
{
    circuit.conductor(d).read_place(read)
}

/// The net that a device's slot gives to.
pub(crate) fn target(circuit: &Circuit, d: DevId, slot: u8) -> NetId
    requires { d.0 < devices circuit.now }
    ensures net { result.0 ≡ target (device_at circuit.now d.0) slot }
    ensures inside { result.0 < nets circuit.now }
{
    circuit.conductor(d).target(slot)
}
