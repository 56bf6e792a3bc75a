//! The bounds found so far, and those of them that wait.
ghost use Rattle.std.specs.Prelude.{◌≡◌, ◌<◌, ◌≤◌, ◌∷◌, IfOk, IfSome, OnOk, true, false, is_some, length};
ghost use Rattle.cvc_law.specs.Network.{nets, devices};
ghost use Rattle.cvc_law.specs.Least.{IsClosed, IsLeast};
ghost use Rattle.cvc_serial.specs.Settling.{IsSettling, IsOnward, IsTried, HasLifted, HasClimbed, room_left, work_left};

use crate::log::{Log, note};
use crate::pending::Pending;
use crate::routes::Routes;
use crate::waiting::Waiting;
use crate::widen::widening_of;
use cvc_base::{DevId, NetId, NoMemory};
use cvc_law::{Circuit, Interval};

/// After so many sweeps all that they widen waits.
const SWEEPS: u32 = 4;

/// Until then as many bounds as one for so many devices: where more were widened, another sweep is cheaper.
const DEVICES_A_BOUND: usize = 8;

/// What is known of each net, and the bounds that wait until the slots that depend on them are tried. Which of them wait is a matter of speed alone:
/// settling ends with a sweep over all devices that widens nothing.
#[derive(Drop)]
pub(crate) struct Engine {
    pub(crate) bounds: Vec<Interval>,
    pub(crate) waiting: Waiting,
    pub(crate) routes: Routes,
    /// A line for each widening, where a log is kept.
    pub(crate) log: Option<Log>,
}

impl Engine {
    /// Widens the bound that a slot of the device widens, if any.
    fn widen(&mut self, circuit: &Circuit, d: DevId, slot: u8) -> Result<Option<Pending>, NoMemory>
        requires device { d.0 < devices circuit.now }
        requires slot { slot < 4 }
        requires settling { IsSettling circuit.now self.old }
        ensures { IfOk result (λ found. IsTried circuit.now d.0 slot self.old self.new found) }
    {
        let Some(found) = widening_of(circuit, &self.bounds, d, slot) else {
            return Ok(None);
        };
        note(&mut self.log, d, slot, found.value)?;
        self.bounds[found.bound.net.0 as usize] = found.interval;
        Ok(Some(found.bound))
    }

    /// Tries each slot of each device in order. What is widened waits, but for no more than so many bounds. Whether any was.
    fn sweep(&mut self, circuit: &Circuit, most: usize) -> Result<bool, NoMemory>
        requires { IsSettling circuit.now self.old }
        ensures onward { OnOk result (IsOnward circuit.now self.old self.new) }
        ensures widened { IfOk result (λ widened. widened ≡ true → room_left circuit.now self.new < room_left circuit.now self.old) }
        ensures closed { IfOk result (λ widened. widened ≡ false → IsClosed circuit.now self.new.bounds.items) }
    {
        let mut widened = false;
        for place in 0..4 * circuit.devices() {
            if let Some(bound) = self.widen(circuit, DevId(place / 4), (place % 4) as u8)? {
                widened = true;
                if self.waiting.len() < most {
                    self.waiting.push(bound)?;
                }
            }
        }
        Ok(widened)
    }

    /// Widens the bound that a slot of the device widens, and lets it wait.
    fn try_slot(&mut self, circuit: &Circuit, d: DevId, slot: u8) -> Result<(), NoMemory>
        requires device { d.0 < devices circuit.now }
        requires slot { slot < 4 }
        requires settling { IsSettling circuit.now self.old }
        ensures { OnOk result (IsOnward circuit.now self.old self.new) }
    {
        if let Some(bound) = self.widen(circuit, d, slot)? {
            self.waiting.push(bound)?;
        }
        Ok(())
    }

    /// Tries each slot of the device that depends on the bound.
    fn try_device(&mut self, circuit: &Circuit, d: DevId, bound: Pending) -> Result<(), NoMemory>
        requires device { d.0 < devices circuit.now }
        requires settling { IsSettling circuit.now self.old }
        ensures { OnOk result (IsOnward circuit.now self.old self.new) }
    {
        for slot in 0..4 {
            if bound.moves(circuit.conductor(d), slot) {
                self.try_slot(circuit, d, slot)?;
            }
        }
        Ok(())
    }

    /// Whether the bound was widened again since it began to wait, and so waits once more.
    fn is_overtaken(&self, bound: Pending) -> bool
        requires { bound.net.0 < length self.now.bounds.items }
    {
        !bound.is_of(&self.bounds[bound.net.0 as usize])
    }

    /// Widens a high that the device gives, if any.
    fn lift(&mut self, circuit: &Circuit, d: DevId) -> Result<Option<Pending>, NoMemory>
        requires device { d.0 < devices circuit.now }
        requires settling { IsSettling circuit.now self.old }
        ensures { IfOk result (λ found. HasLifted circuit.now self.old self.new found) }
    {
        let to_b = self.widen(circuit, d, 1)?;
        if to_b.is_some() {
            return Ok(to_b);
        }
        self.widen(circuit, d, 3)
    }

    /// Follows the ways from a net as long as each lifts the high of the next net. How many were lifted, none of which waits yet.
    fn follow(&mut self, circuit: &Circuit, from: NetId) -> Result<u64, NoMemory>
        requires { IsSettling circuit.now self.old }
        ensures { IfOk result (λ steps. HasClimbed circuit.now self.old self.new steps) }
    {
        let mut steps = 0_u64;
        let mut net = from;
        while let Some(d) = self.routes.next(circuit, net) {
            let Some(bound) = self.lift(circuit, d)? else {
                return Ok(steps);
            };
            self.routes.meet(bound.net)?;
            net = bound.net;
            steps = steps.saturating_add(1);
        }
        Ok(steps)
    }

    /// Climbs from a net to the end; then the high of each net on the trail waits, once.
    fn climb(&mut self, circuit: &Circuit, from: NetId) -> Result<(), NoMemory>
        requires { IsSettling circuit.now self.old }
        ensures { OnOk result (IsOnward circuit.now self.old self.new) }
    {
        let steps = self.follow(circuit, from)?;
        for _step in 0..steps {
            let Some(net) = self.routes.leave(circuit) else {
                return Ok(());
            };
            if let Some(high) = self.bounds[net.0 as usize].high {
                self.waiting.push(Pending::new(net, true, high))?;
            }
        }
        Ok(())
    }

    /// Tries the devices that depend on the bound, until it is overtaken: first those by which it climbs.
    fn visit(&mut self, circuit: &Circuit, bound: Pending) -> Result<(), NoMemory>
        requires net { bound.net.0 < nets circuit.now }
        requires settling { IsSettling circuit.now self.old }
        ensures { OnOk result (IsOnward circuit.now self.old self.new) }
    {
        if bound.is_high {
            self.climb(circuit, bound.net)?;
        }
        for d in circuit.fan(bound.net) {
            if self.is_overtaken(bound) {
                return Ok(());
            }
            self.try_device(circuit, *d, bound)?;
        }
        Ok(())
    }

    /// Takes the bounds that wait, one of those that lie furthest out at a time, until none does.
    fn spread(&mut self, circuit: &Circuit) -> Result<(), NoMemory>
        requires { IsSettling circuit.now self.old }
        ensures { OnOk result (IsOnward circuit.now self.old self.new) }
    {
        while let Some(bound) = self.waiting.pop() {
            self.visit(circuit, bound)?;
        }
        Ok(())
    }

    /// Settles the circuit: sweeps over its devices, and between two sweeps what waits, until a sweep widens nothing.
    pub(crate) fn settle(&mut self, circuit: &Circuit) -> Result<(), NoMemory>
        requires { IsSettling circuit.now self.old }
        ensures settling { OnOk result (IsSettling circuit.now self.new) }
        ensures log { OnOk result (is_some self.new.log ≡ is_some self.old.log) }
        ensures least { OnOk result (IsLeast circuit.now self.new.bounds.items) }
    {
        let mut sweeps = 0;
        loop {
            let most = if sweeps < SWEEPS {
                circuit.devices() as usize / DEVICES_A_BOUND
            } else {
                usize::MAX
            };
            if !self.sweep(circuit, most)? {
                return Ok(());
            }
            if self.waiting.len() < most {
                self.spread(circuit)?;
            } else {
                self.waiting.clear();
            }
            sweeps = sweeps.saturating_add(1);
        }
    }
}
