//! Each event on a store: it is done where its guard holds, and otherwise changes nothing.
ghost use Rattle.std.specs.Prelude.{◌≡◌, IsTrue, ◌↔◌};
ghost use Rattle.cvc_law.specs.Network.{Network};
ghost use Rattle.cvc_core.specs.declared.actor.Actor.{Actor as At};
ghost use Rattle.cvc_core.specs.declared.event.Event.{Event};
ghost use Rattle.cvc_core.specs.State.{actor_at};
ghost use Rattle.cvc_core.specs.Sound.{Sound};
ghost use Rattle.cvc_core.specs.Store.{machine_of};
ghost use Rattle.cvc_core.specs.Tried.{IsEventTried};

use crate::store::Store;
use crate::{Actor, Event};
use cvc_base::DevId;
use cvc_law::Circuit;

impl Store {
    /// Whether the actor is absent.
    fn is_absent(&self, k: u8) -> bool
        ensures { IsTrue result ↔ (actor_at (machine_of self.now) k ≡ At.Absent) }
    {
        match self.actor(k) {
            Actor::Absent => true,
            Actor::Idle(_) | Actor::Running(_) => false,
        }
    }

    /// Lowers a bound, by an even slot.
    fn try_lower(&mut self, circuit: &Circuit, k: u8, slot: u8) -> bool
        requires { Sound circuit.now (machine_of self.old) }
        ensures { IsEventTried circuit.now (machine_of self.old) (machine_of self.new) (Event.Lower k slot) result }
    {
        if slot % 2 != 0 {
            return false;
        }
        self.try_widen(circuit, k, slot)
    }

    /// Raises a bound, by an odd slot.
    fn try_raise(&mut self, circuit: &Circuit, k: u8, slot: u8) -> bool
        requires { Sound circuit.now (machine_of self.old) }
        ensures { IsEventTried circuit.now (machine_of self.old) (machine_of self.new) (Event.Raise k slot) result }
    {
        if slot % 2 != 1 {
            return false;
        }
        self.try_widen(circuit, k, slot)
    }

    /// Reads the count.
    fn try_ask(&self, k: u8) -> bool
        ensures { (c : Network) → IsEventTried c (machine_of self.now) (machine_of self.now) (Event.ReadCount k) result }
    {
        self.is_present(k)
    }

    /// Looks at a mark.
    fn try_look(&self, circuit: &Circuit, k: u8, d: DevId) -> bool
        ensures { IsEventTried circuit.now (machine_of self.now) (machine_of self.now) (Event.Look k d) result }
    {
        d.0 < circuit.devices() && self.is_present(k)
    }

    /// Makes an absent actor idle.
    fn try_split(&mut self, k: u8, l: u8) -> bool
        ensures { (c : Network) → IsEventTried c (machine_of self.old) (machine_of self.new) (Event.Split k l) result }
    {
        if !self.is_free(k) || usize::from(l) >= self.actors.len() || !self.is_absent(l) {
            return false;
        }
        self.actors[usize::from(l)] = Actor::Idle(0);
        true
    }

    /// Makes an idle actor absent.
    fn try_join(&mut self, k: u8, l: u8) -> bool
        ensures { (c : Network) → IsEventTried c (machine_of self.old) (machine_of self.new) (Event.Join k l) result }
    {
        if k == l || !self.is_free(k) || !self.is_free(l) {
            return false;
        }
        self.actors[usize::from(l)] = Actor::Absent;
        true
    }

    /// Does the event where its guard holds, and says whether it did.
    pub(crate) fn try_event(&mut self, circuit: &Circuit, event: Event) -> bool
        requires { Sound circuit.now (machine_of self.old) }
        ensures { IsEventTried circuit.now (machine_of self.old) (machine_of self.new) event result }
    {
        match event {
            Event::Load { actor, read } => self.try_read(circuit, actor, read),
            Event::Lower { actor, slot } => self.try_lower(circuit, actor, slot),
            Event::Raise { actor, slot } => self.try_raise(circuit, actor, slot),
            Event::Add { actor } => self.try_take_credit(circuit, actor),
            Event::SetQueued { actor } => self.try_queue(circuit, actor),
            Event::Take { actor, device } => self.try_claim(circuit, actor, device),
            Event::DropRunning { actor } => self.try_release(circuit, actor),
            Event::Subtract { actor } => self.try_give_credit(circuit, actor),
            Event::ReadCount { actor } => self.try_ask(actor),
            Event::Look { actor, device } => self.try_look(circuit, actor, device),
            Event::Split { actor, other } => self.try_split(actor, other),
            Event::Join { actor, other } => self.try_join(actor, other),
        }
    }
}
