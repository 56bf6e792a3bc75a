//! Each step of an actor on a store: it is done where its guard holds, and otherwise changes nothing.
ghost use Rattle.std.specs.Prelude.{◌≡◌, IsTrue, ◌↔◌};
ghost use Rattle.cvc_core.specs.declared.actor.Actor.{Actor as At};
ghost use Rattle.cvc_core.specs.declared.actor.Intent.{Intent};
ghost use Rattle.cvc_core.specs.State.{actor_at};
ghost use Rattle.cvc_core.specs.Steps.{IsPresent};
ghost use Rattle.cvc_core.specs.Sound.{Sound};
ghost use Rattle.cvc_core.specs.Store.{machine_of};
ghost use Rattle.cvc_core.specs.Tried.{IsStepTried};

use crate::Actor;
use crate::guards::{has_spare_credit, may_read, may_release, may_widen};
use crate::offers::offer;
use crate::runs::{begun, given, loaded, marked, new_debt, next_debt, next_device, with_credits};
use crate::store::{Mark, Store};
use cvc_base::DevId;
use cvc_law::Circuit;

impl Store {
    /// Loads a read of the actor's device.
    pub(crate) fn try_read(&mut self, circuit: &Circuit, k: u8, read: u8) -> bool
        requires { Sound circuit.now (machine_of self.old) }
        ensures { IsStepTried circuit.now (machine_of self.old) (machine_of self.new) k (Intent.Read read) result }
    {
        let Some(run) = self.running(k) else {
            return false;
        };
        if !may_read(circuit, &run, read) {
            return false;
        }
        let device = circuit.device(run.device);
        let reach = self.bounds[device.read_place(read)];
        self.actors[usize::from(k)] = Actor::Running(loaded(run, read, reach));
        true
    }

    /// Gives what a slot of the actor's device gives.
    pub(crate) fn try_widen(&mut self, circuit: &Circuit, k: u8, slot: u8) -> bool
        requires { Sound circuit.now (machine_of self.old) }
        ensures { IsStepTried circuit.now (machine_of self.old) (machine_of self.new) k (Intent.Widen slot) result }
    {
        let Some(run) = self.running(k) else {
            return false;
        };
        if !may_widen(circuit, &run, slot) {
            return false;
        }
        let reach = offer(circuit, &run, slot);
        let device = circuit.device(run.device);
        let net = device.target(slot);
        let bound = device.target_place(slot);
        let before = self.bounds[bound];
        let owes = new_debt(net, before, reach);
        self.bounds[bound] = before.max(reach);
        self.actors[usize::from(k)] = Actor::Running(given(run, slot, owes));
        true
    }

    /// Adds to the count and to the actor's credits.
    pub(crate) fn try_take_credit(&mut self, circuit: &Circuit, k: u8) -> bool
        requires { Sound circuit.now (machine_of self.old) }
        ensures { IsStepTried circuit.now (machine_of self.old) (machine_of self.new) k Intent.TakeCredit result }
    {
        let Some(run) = self.running(k) else {
            return false;
        };
        if run.owes.is_none() || run.credits != 1 {
            return false;
        }
        self.count += 1;
        self.actors[usize::from(k)] = Actor::Running(with_credits(run, run.credits + 1));
        true
    }

    /// Queues the next device that the actor owes.
    pub(crate) fn try_queue(&mut self, circuit: &Circuit, k: u8) -> bool
        requires { Sound circuit.now (machine_of self.old) }
        ensures { IsStepTried circuit.now (machine_of self.old) (machine_of self.new) k Intent.Queue result }
    {
        let Some(run) = self.running(k) else {
            return false;
        };
        let Some(debt) = run.owes else {
            return false;
        };
        if run.credits != 2 {
            return false;
        }
        let d = next_device(circuit, debt);
        let mark = self.mark(d);
        let credits = if mark.queued {
            run.credits
        } else {
            run.credits - 1
        };
        let owes = next_debt(circuit, debt);
        self.marks[d.0 as usize] = mark.with_queued();
        self.actors[usize::from(k)] = Actor::Running(marked(run, owes, credits));
        true
    }

    /// Whether the actor is idle without credits.
    pub(crate) fn is_free(&self, k: u8) -> bool
        ensures { IsTrue result ↔ (actor_at (machine_of self.now) k ≡ At.Idle 0) }
    {
        match self.actor(k) {
            Actor::Idle(credits) => credits == 0,
            Actor::Absent | Actor::Running(_) => false,
        }
    }

    /// Takes a device to run.
    pub(crate) fn try_claim(&mut self, circuit: &Circuit, k: u8, d: DevId) -> bool
        requires { Sound circuit.now (machine_of self.old) }
        ensures { IsStepTried circuit.now (machine_of self.old) (machine_of self.new) k (Intent.Claim d) result }
    {
        if d.0 >= circuit.devices() || !self.is_free(k) {
            return false;
        }
        let mark = self.mark(d);
        if !mark.is_plain_queued() {
            return false;
        }
        self.marks[d.0 as usize] = Mark {
            queued: false,
            running: true,
        };
        self.actors[usize::from(k)] = Actor::Running(begun(d));
        true
    }

    /// Ends the run of the actor's device.
    pub(crate) fn try_release(&mut self, circuit: &Circuit, k: u8) -> bool
        requires { Sound circuit.now (machine_of self.old) }
        ensures { IsStepTried circuit.now (machine_of self.old) (machine_of self.new) k Intent.Release result }
    {
        let Some(run) = self.running(k) else {
            return false;
        };
        if !may_release(circuit, &run) {
            return false;
        }
        let mark = self.mark(run.device);
        self.marks[run.device.0 as usize] = Mark {
            queued: mark.queued,
            running: false,
        };
        self.actors[usize::from(k)] = Actor::Idle(run.credits);
        true
    }

    /// Subtracts from the count and from the actor's credits.
    pub(crate) fn try_give_credit(&mut self, circuit: &Circuit, k: u8) -> bool
        requires { Sound circuit.now (machine_of self.old) }
        ensures { IsStepTried circuit.now (machine_of self.old) (machine_of self.new) k Intent.GiveCredit result }
    {
        match self.actor(k) {
            Actor::Idle(credits) if credits > 0 => {
                self.count -= 1;
                self.actors[usize::from(k)] = Actor::Idle(credits - 1);
                true
            }
            Actor::Running(run) if has_spare_credit(&run) => {
                self.count -= 1;
                self.actors[usize::from(k)] = Actor::Running(with_credits(run, run.credits - 1));
                true
            }
            _ => false,
        }
    }

    /// Whether the actor is there.
    pub(crate) fn is_present(&self, k: u8) -> bool
        ensures { IsTrue result ↔ IsPresent (actor_at (machine_of self.now) k) }
    {
        match self.actor(k) {
            Actor::Absent => false,
            Actor::Idle(_) | Actor::Running(_) => true,
        }
    }
}
