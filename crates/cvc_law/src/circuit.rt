//! Circuits: what each net is declared at, the devices, and the fans of the nets.
ghost use Rattle.std.specs.Prelude.{◌≡◌, ◌<◌, Option, Some, map, slice_get, IfOk, All};
ghost use Rattle.cvc_law.specs.Network.{IsCircuit, IsDevice, nets, devices, fixed_at, fan_of, floor_of, ceiling_of};
ghost use Rattle.cvc_law.specs.Conductor.{conductor_of, IsOnNets};
ghost use Rattle.cvc_law.specs.Reach.{device_at};
ghost use Rattle.cvc_law.specs.ReachWord.{IsInMillion};

use crate::conductor::conductors_of;
use crate::fans::{Fans, fans_of};
use crate::range::{highest, lowest};
use crate::{Conductor, Device, Fixed};
use cvc_base::{DevId, Mv, NetId, NoMemory};
use std::alloc::Global;
use std::marker::Model;

/// A circuit: its nets, each with the voltages it is declared at, if any, and its devices.
/// Contracts see it as its `Network`.
#[derive(Drop)]
pub struct Circuit {
    fixed: Vec<Option<Fixed>>,
    devices: Vec<Device>,
    conductors: Vec<Conductor>,
    fans: Fans,
    floor: Option<Mv>,
    ceiling: Option<Mv>,
}

impl Model for Circuit {
    ghost use Rattle.cvc_law.specs.Network.{Network};
    ghost use Rattle.cvc_law.specs.Kept.{IsKept};

    ghost Value = { Network };

    ghost view = { λ c. record { fixed = c.fixed.items; devices = c.devices.items } };

    ghost invariant = { λ c. IsKept c.fixed.items c.devices.items c.conductors.items c.fans.offsets.items c.fans.devices.items c.floor c.ceiling };
}

impl Circuit {
    /// The circuit of these nets and devices. It takes all its memory here.
    pub fn new(
        alloc: Global,
        fixed: Vec<Option<Fixed>>,
        devices: Vec<Device>,
    ) -> Result<Circuit, NoMemory>
        requires { IsCircuit fixed.items devices.items }
        ensures { IfOk result (λ c. c ≡ record { fixed = fixed.items; devices = devices.items }) }
    {
        let conductors = conductors_of(alloc, &devices)?;
        let fans = fans_of(alloc, fixed.len(), &devices)?;
        let floor = lowest(&fixed);
        let ceiling = highest(&fixed);
        Ok(Circuit {
            fixed,
            devices,
            conductors,
            fans,
            floor,
            ceiling,
        })
    }

    /// How many nets it has.
    pub fn nets(&self) -> u32
        ensures count { result ≡ nets self.now }
        ensures circuit { IsCircuit self.now.fixed self.now.devices }
    {
        self.fixed.len() as u32
    }

    /// How many devices it has.
    pub fn devices(&self) -> u32
        ensures count { result ≡ devices self.now }
        ensures circuit { IsCircuit self.now.fixed self.now.devices }
    {
        self.devices.len() as u32
    }

    /// What a net is declared at, if it is.
    pub fn fixed(&self, n: NetId) -> Option<Fixed>
        requires { n.0 < nets self.now }
        ensures { result ≡ fixed_at self.now n.0 }
    {
        self.fixed[n.0 as usize]
    }

    /// A device.
    pub fn device(&self, d: DevId) -> &Device
        requires { d.0 < devices self.now }
        ensures device { slice_get self.now.devices d.0 ≡ Some result.now }
        ensures same { result.now ≡ device_at self.now d.0 }
        ensures sound { IsDevice (nets self.now) result.now }
    {
        &self.devices[d.0 as usize]
    }

    /// What conduction reads of a device.
    pub fn conductor(&self, d: DevId) -> &Conductor
        requires { d.0 < devices self.now }
        ensures same { result.now ≡ conductor_of (device_at self.now d.0) }
        ensures inside { IsOnNets (nets self.now) result.now }
    {
        &self.conductors[d.0 as usize]
    }

    /// The devices that read the bounds of a net, each once, in order.
    pub fn fan(&self, n: NetId) -> &[DevId]
        requires { n.0 < nets self.now }
        ensures fan { map (λ d. d.0) result.now ≡ fan_of self.now n.0 }
        ensures inside { All (λ d. d.0 < devices self.now) result.now }
    {
        let net = n.0 as usize;
        let start = self.fans.offsets[net] as usize;
        let end = self.fans.offsets[net + 1] as usize;
        &self.fans.devices[start..end]
    }

    /// The least declared low, in millivolts: `None` where nothing is declared.
    pub fn floor(&self) -> Option<Mv>
        ensures floor { result ≡ floor_of self.now }
        ensures in_million { IsInMillion self.now }
    {
        self.floor
    }

    /// The greatest declared high, in millivolts: `None` where nothing is declared.
    pub fn ceiling(&self) -> Option<Mv>
        ensures ceiling { result ≡ ceiling_of self.now }
        ensures in_million { IsInMillion self.now }
    {
        self.ceiling
    }
}
