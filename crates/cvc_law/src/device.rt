//! Devices of a circuit.
ghost use Rattle.std.specs.Prelude.{◌≡◌, ◌<◌, ◌*◌, ℕ, length, true};

use crate::{Interval, Reads};
use arrayvec::ArrayVec;
use cvc_base::{Kind, NetId, Volts};

/// A device: its kind, the nets of its pins in card order, and the voltages of its model.
#[derive(Debug, Drop)]
pub struct Device {
    pub kind: Kind,
    pub pins: ArrayVec<NetId, 4>,
    pub volts: Volts,
}

impl Device {
    ghost use Rattle.cvc_law.specs.Network.{pin, HasPins, IsDevice, end_a, end_b, gate, bulk, is_mos, conducts};
    ghost use Rattle.cvc_law.specs.Conduction.{target};
    ghost use Rattle.cvc_law.specs.Least.{reads_of};
    ghost use Rattle.cvc_law.specs.Reach.{read_count, end_net, read_place, target_place};

    /// Whether it is a MOS, which alone has a gate and a bulk.
    pub fn is_mos(&self) -> bool
        ensures { result ≡ is_mos self.now.kind }
    {
        matches!(self.kind, Kind::Nmos | Kind::Pmos)
    }

    /// Whether it can hand a voltage on at all: a capacitor and a bipolar can't.
    pub fn conducts(&self) -> bool
        ensures { result ≡ conducts self.now.kind }
    {
        !matches!(self.kind, Kind::Capacitor | Kind::Bipolar)
    }

    /// The net of the pin at this place of the card.
    pub fn pin(&self, i: usize) -> NetId
        requires { i < length self.now.pins.items }
        ensures { result.0 ≡ pin self.now i }
    {
        self.pins.as_slice()[i]
    }

    /// The net at the end a: the drain of a MOS, the anode of a diode, the first net of the others.
    pub fn end_a(&self) -> NetId
        requires { HasPins self.now }
        ensures net { result.0 ≡ end_a self.now }
        ensures inside { (net_count : ℕ) → IsDevice net_count self.now → result.0 < net_count }
    {
        self.pin(0)
    }

    /// The net at the end b: the source of a MOS, the cathode of a diode, the second net of the others.
    pub fn end_b(&self) -> NetId
        requires { HasPins self.now }
        ensures net { result.0 ≡ end_b self.now }
        ensures inside { (net_count : ℕ) → IsDevice net_count self.now → result.0 < net_count }
    {
        match self.kind {
            Kind::Nmos | Kind::Pmos => self.pin(2),
            Kind::Resistor | Kind::Diode | Kind::Capacitor | Kind::Inductor | Kind::Bipolar => {
                self.pin(1)
            }
        }
    }

    /// The net of the gate of a MOS. Of another kind it is the second net, which conduction doesn't read as a gate.
    pub fn gate(&self) -> NetId
        requires { HasPins self.now }
        ensures net { result.0 ≡ gate self.now }
        ensures inside { (net_count : ℕ) → IsDevice net_count self.now → result.0 < net_count }
    {
        self.pin(1)
    }

    /// The net of the bulk of a MOS.
    pub fn bulk(&self) -> NetId
        requires pins { HasPins self.now }
        requires mos { is_mos self.now.kind ≡ true }
        ensures net { result.0 ≡ bulk self.now }
        ensures inside { (net_count : ℕ) → IsDevice net_count self.now → result.0 < net_count }
    {
        self.pin(3)
    }

    /// The net that a slot gives to: slots 0 and 1 give to the end b, slots 2 and 3 to the end a.
    pub fn target(&self, slot: u8) -> NetId
        requires { HasPins self.now }
        ensures net { result.0 ≡ target self.now slot }
        ensures inside { (net_count : ℕ) → IsDevice net_count self.now → result.0 < net_count }
    {
        if slot < 2 { self.end_b() } else { self.end_a() }
    }

    /// What the intervals, one a net, say of its ends and its gate.
    pub fn reads(&self, intervals: &[Interval]) -> Reads
        requires { IsDevice (length intervals.now) self.now }
        ensures { result ≡ reads_of intervals.now self.now }
    {
        Reads {
            a: intervals[self.end_a().0 as usize],
            b: intervals[self.end_b().0 as usize],
            g: intervals[self.gate().0 as usize],
        }
    }

    /// How many bounds it reads: the low and high of a and of b, and for a MOS those of the gate.
    pub fn read_count(&self) -> u8
        ensures { result ≡ read_count self.now.kind }
    {
        match self.kind {
            Kind::Nmos | Kind::Pmos => 6,
            Kind::Resistor | Kind::Inductor | Kind::Diode => 4,
            Kind::Capacitor | Kind::Bipolar => 0,
        }
    }

    /// The net at the end a, at the end b and at the gate: by 0, 1 and any other number.
    fn end_net(&self, end: u8) -> NetId
        requires { HasPins self.now }
        ensures net { result.0 ≡ end_net self.now end }
        ensures inside { (net_count : ℕ) → IsDevice net_count self.now → result.0 < net_count }
    {
        match end {
            0 => self.end_a(),
            1 => self.end_b(),
            _ => self.gate(),
        }
    }

    /// The index of the bound that a read reads: twice the net for a low, and one more for a high.
    /// Reads 0 and 1 are the low and high of the end a, 2 and 3 those of the end b, 4 and 5 those of the gate.
    pub fn read_place(&self, read: u8) -> usize
        requires { HasPins self.now }
        ensures place { result ≡ read_place self.now read }
        ensures inside { (net_count : ℕ) → IsDevice net_count self.now → result < 2 * net_count }
    {
        2 * self.end_net(read / 2).0 as usize + usize::from(read % 2)
    }

    /// The index of the bound that a slot gives to: twice the net for a low, which even slots give, and one more for a high.
    pub fn target_place(&self, slot: u8) -> usize
        requires { HasPins self.now }
        ensures place { result ≡ target_place self.now slot }
        ensures inside { (net_count : ℕ) → IsDevice net_count self.now → result < 2 * net_count }
    {
        2 * self.target(slot).0 as usize + usize::from(slot % 2)
    }
}
