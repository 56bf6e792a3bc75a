//! What conduction reads of the devices, in a compact array beside them.
ghost use Rattle.std.specs.Prelude.{◌≡◌, ◌<◌, ◌+◌, ◌*◌, ◌/◌, ◌%◌, ℕ, length, map, IfOk};
ghost use Rattle.cvc_law.specs.Network.{HasPins};
ghost use Rattle.cvc_law.specs.Conductor.{voltage_of, conductor_of, IsOnNets, target_net, net_at, reads_at};
ghost use Rattle.cvc_law.specs.Reach.{read_count};
ghost use Rattle.cvc_law.specs.Fans.{AreSound};

use crate::{Device, Interval, Reads};
use cvc_base::{Kind, Mv, NetId, NoMemory, Volts};
use std::alloc::Global;

/// What conduction reads of a device.
#[derive(Clone, Copy, Debug)]
pub struct Conductor {
    pub kind: Kind,
    /// The net at the end a.
    pub a: NetId,
    /// The net at the end b.
    pub b: NetId,
    /// The net of a MOS's gate. Of another kind it is the second net, which conduction doesn't read as a gate.
    pub gate: NetId,
    /// The threshold of a MOS, and the drop of a diode.
    pub voltage: Mv,
}

// A device takes four times as much.
const _: () = prove!(size_of::<Conductor>() <= 24);

/// The voltage that devices of the kind conduct by.
fn voltage_of(kind: Kind, volts: &Volts) -> Mv
    ensures { result ≡ voltage_of kind volts.now }
{
    match kind {
        Kind::Diode => volts.drop,
        Kind::Nmos
        | Kind::Pmos
        | Kind::Resistor
        | Kind::Capacitor
        | Kind::Inductor
        | Kind::Bipolar => volts.threshold,
    }
}

/// What conduction reads of this device.
fn conductor_of(device: &Device) -> Conductor
    requires { HasPins device.now }
    ensures { result ≡ conductor_of device.now }
{
    Conductor {
        kind: device.kind,
        a: device.end_a(),
        b: device.end_b(),
        gate: device.gate(),
        voltage: voltage_of(device.kind, &device.volts),
    }
}

/// What conduction reads of each of these devices.
pub(crate) fn conductors_of(alloc: Global, devices: &[Device]) -> Result<Vec<Conductor>, NoMemory>
    requires { AreSound devices.now }
    ensures { IfOk result (λ conductors. conductors.items ≡ map conductor_of devices.now) }
{
    let mut conductors = Vec::with_capacity(alloc, devices.len())?;
    for device in devices {
        conductors.push(conductor_of(device))?;
    }
    Ok(conductors)
}

impl Conductor {
    /// The net that a slot gives to: slots 0 and 1 give to the end b, slots 2 and 3 to the end a.
    pub fn target(&self, slot: u8) -> NetId
        ensures net { result.0 ≡ target_net self.now slot }
        ensures inside { (net_count : ℕ) → IsOnNets net_count self.now → result.0 < net_count }
    {
        if slot < 2 { self.b } else { self.a }
    }

    /// What the intervals, one a net, say of its ends and its gate.
    pub fn reads(&self, intervals: &[Interval]) -> Reads
        requires { IsOnNets (length intervals.now) self.now }
        ensures { result ≡ reads_at intervals.now self.now }
    {
        Reads {
            a: intervals[self.a.0 as usize],
            b: intervals[self.b.0 as usize],
            g: intervals[self.gate.0 as usize],
        }
    }

    /// How many bounds it reads: the low and high of a and of b, and for a MOS those of the gate.
    pub fn read_count(&self) -> u8
        ensures { result ≡ read_count self.now.kind }
    {
        match self.kind {
            Kind::Nmos | Kind::Pmos => 6,
            Kind::Resistor | Kind::Inductor | Kind::Diode => 4,
            Kind::Capacitor | Kind::Bipolar => 0,
        }
    }

    /// The net at the end a, at the end b and at the gate: by 0, 1 and any other number.
    fn net_at(&self, end: u8) -> NetId
        ensures net { result.0 ≡ net_at self.now end }
        ensures inside { (net_count : ℕ) → IsOnNets net_count self.now → result.0 < net_count }
    {
        match end {
            0 => self.a,
            1 => self.b,
            _ => self.gate,
        }
    }

    /// The index of the bound that a read reads: twice the net for a low, and one more for a high.
    /// Reads 0 and 1 are the low and high of the end a, 2 and 3 those of the end b, 4 and 5 those of the gate.
    pub fn read_place(&self, read: u8) -> usize
        ensures place { result ≡ 2 * net_at self.now (read / 2) + read % 2 }
        ensures inside { (net_count : ℕ) → IsOnNets net_count self.now → result < 2 * net_count }
    {
        2 * self.net_at(read / 2).0 as usize + usize::from(read % 2)
    }
}
