//! Routes to gates by which bounds climb. An nmos whose threshold is below zero gives a high further out than its gate's, so where its end leads
//! back to its gate a high climbs round and round. No answer depends on routes, only the time that such a circuit takes.
ghost use Rattle.std.specs.Prelude.{◌<◌, IfSome};
ghost use Rattle.cvc_law.specs.Network.{nets, devices};

use cvc_base::{DevId, Kind, NetId, NoMemory};
use cvc_law::{Circuit, Conductor};
use std::alloc::Global;

/// How often the devices are gone through for routes: one that takes more devices against their order isn't found.
const ROUNDS: u32 = 8;

/// Where a high is handed on to a gate by which it may climb.
#[derive(Clone, Copy)]
struct Way {
    device: Option<DevId>,
    /// Whether the net is on the trail of the climb that is under way.
    is_met: bool,
}

/// A way from each net, if there is one; no list where no bound climbs.
#[derive(Drop)]
pub(crate) struct Routes {
    ways: Vec<Way>,
    trail: Vec<NetId>,
}

/// Whether it gives a high further out than that of its gate.
fn climbs(conductor: &Conductor) -> bool {
    conductor.kind == Kind::Nmos && conductor.voltage.get() < 0
}

fn any_climbs(circuit: &Circuit) -> bool {
    for d in 0..circuit.devices() {
        if climbs(circuit.conductor(DevId(d))) {
            return true;
        }
    }
    false
}

impl Routes {
    /// The ways of a circuit.
    pub(crate) fn new(alloc: Global, circuit: &Circuit) -> Result<Routes, NoMemory> {
        let mut routes = Routes {
            ways: Vec::new(alloc),
            trail: Vec::new(alloc),
        };
        if any_climbs(circuit) {
            let none = Way {
                device: None,
                is_met: false,
            };
            routes.ways = vec![in alloc; none; circuit.nets() as usize]?;
            routes.find(circuit);
        }
        Ok(routes)
    }

    /// Goes through the devices until no way is found any more, but not often.
    fn find(&mut self, circuit: &Circuit) {
        for d in 0..circuit.devices() {
            let conductor = circuit.conductor(DevId(d));
            if climbs(conductor) {
                self.put(circuit, conductor.gate, DevId(d));
            }
        }
        for _round in 0..ROUNDS {
            if !self.lengthen(circuit) {
                return;
            }
        }
    }

    /// Finds ways through each device, in order. Whether there are any more.
    fn lengthen(&mut self, circuit: &Circuit) -> bool {
        let mut found = false;
        for d in 0..circuit.devices() {
            let conductor = circuit.conductor(DevId(d));
            let has_a = self.has_way(conductor.a);
            let has_b = self.has_way(conductor.b);
            if has_a || has_b {
                found |= !has_a && self.put(circuit, conductor.a, DevId(d));
                found |= !has_b && self.put(circuit, conductor.b, DevId(d));
                found |= self.put(circuit, conductor.gate, DevId(d));
            }
        }
        found
    }

    fn has_way(&self, net: NetId) -> bool {
        self.way(net).is_some()
    }

    /// A way from the net, unless it has one or is declared, so that its high never moves.
    fn put(&mut self, circuit: &Circuit, net: NetId, device: DevId) -> bool
        requires { net.0 < nets circuit.now }
    {
        if self.has_way(net) || circuit.fixed(net).is_some() {
            return false;
        }
        match self.ways.get_mut(net.0 as usize) {
            None => false,
            Some(way) => {
                way.device = Some(device);
                true
            }
        }
    }

    fn way(&self, net: NetId) -> Option<DevId> {
        self.ways.get(net.0 as usize)?.device
    }

    /// The device that hands the net's high on to a gate by which it may climb.
    pub(crate) fn next(&self, circuit: &Circuit, net: NetId) -> Option<DevId>
        ensures { IfSome result (λ d. d.0 < devices circuit.now) }
    {
        self.way(net).filter(|d| d.0 < circuit.devices())
    }

    /// Puts a net on the trail of the climb, unless it is there.
    pub(crate) fn meet(&mut self, net: NetId) -> Result<(), NoMemory> {
        if let Some(way) = self.ways.get_mut(net.0 as usize) {
            if !way.is_met {
                way.is_met = true;
                self.trail.push(net)?;
            }
        }
        Ok(())
    }

    /// Takes a net off the trail.
    pub(crate) fn leave(&mut self, circuit: &Circuit) -> Option<NetId>
        ensures { IfSome result (λ n. n.0 < nets circuit.now) }
    {
        let net = self.trail.pop()?;
        if let Some(way) = self.ways.get_mut(net.0 as usize) {
            way.is_met = false;
        }
        if net.0 < circuit.nets() {
            Some(net)
        } else {
            None
        }
    }
}
