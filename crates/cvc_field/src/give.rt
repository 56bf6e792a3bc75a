//! What a device gives is put, and the fans of the nets that it widened are marked.
ghost use Rattle.std.specs.Prelude.{◌≡◌, ℕ, ◌+◌, ◌<◌, ◌≤◌, ◌∷◌, [], None, true, false, length, if◌then◌else◌};
ghost use Rattle.cvc_law.specs.Network.{nets, devices};
ghost use Rattle.cvc_law.specs.Conduction.{target as target_of};
ghost use Rattle.cvc_law.specs.Reach.{device_at};
ghost use Rattle.cvc_law.specs.ReachWord.{IsInMillion};
ghost use Rattle.cvc_core.specs.declared.actor.Actor.TheVariants.{Running};
ghost use Rattle.cvc_core.specs.State.{run_of};
ghost use Rattle.cvc_core.specs.Steps.{next_debt, is_queued};
ghost use Rattle.cvc_core.specs.State.{debt_of};
ghost use Rattle.cvc_field.specs.Runs.{Goes, GoesNoting, IsGiving, MayGive, IsOwing, IsMarking, debt_from, given_run, with_debt};
ghost use Rattle.cvc_field.specs.Seats.{IsSeatOf};

use crate::field::Field;
use crate::places::target;
use crate::tray::{Tray, note};
use crate::view::View;
use crate::words::value_word;
use atomic_table::Seat;
use cvc_base::{DevId, NetId};
use cvc_law::{Reads, gives};

/// Whether a mark is Queued, by itself or beside Running.
fn says_queued(mark: u64) -> bool
    ensures { result ≡ is_queued mark }
{
    mark % 2 == 1
}

impl<'c> Field<'c> {
    /// A second credit, if there is none to spare.
    fn take_credit(&self, seat: &mut Seat<(), View>, d: DevId, spare: bool)
        requires seat { IsSeatOf self.now seat.old }
        requires owing { IsOwing self.now.circuit.now d.0 spare seat.old.me.0.actor }
        ensures seat { IsSeatOf self.now seat.new }
        ensures actor { seat.new.me.0.actor ≡ Running (with_debt (run_of seat.old.me.0.actor).owes true (run_of seat.old.me.0.actor)) }
        ensures goes { Goes seat.old.me.0 seat.new.me.0 [] }
    {
        if spare {
            return;
        }
        self.add(seat);
    }

    /// Marks the device that the run owes next. Whether it was queued before, so that a credit is to spare.
    fn mark(&self, seat: &mut Seat<(), View>, d: DevId) -> bool
        requires seat { IsSeatOf self.now seat.old }
        requires device { d.0 < devices self.now.circuit.now }
        requires owing { IsOwing self.now.circuit.now d.0 true seat.old.me.0.actor }
        ensures seat { IsSeatOf self.now seat.new }
        ensures actor { seat.new.me.0.actor
            ≡ Running (with_debt (next_debt self.now.circuit.now (debt_of (run_of seat.old.me.0.actor).owes)) result (run_of seat.old.me.0.actor)) }
        ensures goes { Goes seat.old.me.0 seat.new.me.0 (if result then [] else d ∷ []) }
    {
        let found = self.set_queued(seat, d);
        says_queued(found)
    }

    /// Takes a credit if there is none to spare, marks the device that the run owes next, and notes it if it is newly queued.
    /// Whether a credit is to spare then.
    fn mark_next(&self, seat: &mut Seat<(), View>, d: DevId, spare: bool, tray: &mut Tray) -> bool
        requires seat { IsSeatOf self.now seat.old }
        requires device { d.0 < devices self.now.circuit.now }
        requires owing { IsOwing self.now.circuit.now d.0 spare seat.old.me.0.actor }
        ensures seat { IsSeatOf self.now seat.new }
        ensures actor { seat.new.me.0.actor
            ≡ Running (with_debt (next_debt self.now.circuit.now (debt_of (run_of seat.old.me.0.actor).owes)) result (run_of seat.old.me.0.actor)) }
        ensures goes { GoesNoting seat.old.me.0 seat.new.me.0 tray.old.items tray.new.items }
    {
        self.take_credit(seat, d, spare);
        let was_queued = self.mark(seat, d);
        note(tray, d, was_queued);
        was_queued
    }

    /// Marks the whole fan of a net that the run owes. Whether a credit is to spare then.
    fn mark_fan(&self, seat: &mut Seat<(), View>, net: NetId, spare: bool, tray: &mut Tray) -> bool
        requires seat { IsSeatOf self.now seat.old }
        requires net { net.0 < nets self.now.circuit.now }
        requires room { length tray.old.items ≤ 32 }
        requires marking { IsMarking self.now.circuit.now net.0 0 spare seat.old.me.0.actor }
        ensures seat { IsSeatOf self.now seat.new }
        ensures actor { seat.new.me.0.actor ≡ Running (with_debt None result (run_of seat.old.me.0.actor)) }
        ensures goes { GoesNoting seat.old.me.0 seat.new.me.0 tray.old.items tray.new.items }
    {
        let mut spare = spare;
        for d in self.circuit.fan(net) {
            spare = self.mark_next(seat, *d, spare, tray);
        }
        spare
    }

    /// Puts what a slot gives. Whether the net was widened, so that the run owes it.
    fn widen(&self, seat: &mut Seat<(), View>, d: DevId, slot: u8, net: NetId, value: i64) -> bool
        requires seat { IsSeatOf self.now seat.old }
        requires device { d.0 < devices self.now.circuit.now }
        requires slot { slot < 4 }
        requires range { IsInMillion self.now.circuit.now }
        requires net { (net.0 ≡ target_of (device_at self.now.circuit.now d.0) slot) × (net.0 < nets self.now.circuit.now) }
        requires may { MayGive self.now.circuit.now d slot value seat.old.me.0.actor }
        ensures seat { IsSeatOf self.now seat.new }
        ensures actor { seat.new.me.0.actor
            ≡ Running (given_run slot (if result then debt_from self.now.circuit.now net.0 0 else None) (run_of seat.old.me.0.actor)) }
        ensures goes { Goes seat.old.me.0 seat.new.me.0 [] }
    {
        let bound = 2 * net.0 as usize + usize::from(slot % 2);
        let operand = value_word(value);
        if slot % 2 == 0 {
            let found = self.lower(seat, bound, slot, operand);
            return operand < found;
        }
        let found = self.raise(seat, bound, slot, operand);
        found < operand
    }

    /// Settles a slot: puts what it gives to a net that isn't declared, and marks the net's fan if the net was widened.
    /// Whether a credit is to spare then.
    pub(crate) fn give_slot(
        &self,
        seat: &mut Seat<(), View>,
        d: DevId,
        slot: u8,
        reads: &Reads,
        spare: bool,
        tray: &mut Tray,
    ) -> bool
        requires seat { IsSeatOf self.now seat.old }
        requires device { d.0 < devices self.now.circuit.now }
        requires slot { slot < 4 }
        requires room { length tray.old.items ≤ 32 }
        requires giving { IsGiving self.now.circuit.now d reads.now slot None spare seat.old.me.0.actor }
        ensures seat { IsSeatOf self.now seat.new }
        ensures giving { IsGiving self.now.circuit.now d reads.now (slot + 1) None result seat.new.me.0.actor }
        ensures goes { GoesNoting seat.old.me.0 seat.new.me.0 tray.old.items tray.new.items }
    {
        let _floor = self.circuit.floor();
        let net = target(self.circuit, d, slot);
        if self.circuit.fixed(net).is_some() {
            return spare;
        }
        let Some(value) = gives(self.circuit, d, slot, reads) else {
            return spare;
        };
        if !self.widen(seat, d, slot, net, value) {
            return spare;
        }
        self.mark_fan(seat, net, spare, tray)
    }
}
