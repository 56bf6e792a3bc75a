//! The events of the machine, each by one atomic step of a seat.
ghost use Rattle.std.specs.Prelude.{◌≡◌, ℕ, ◌+◌, ◌%◌, ◌<◌, ◌≤◌, [], ◌∷◌, if◌then◌else◌};
ghost use Rattle.cvc_law.specs.Network.{devices};
ghost use Rattle.cvc_law.specs.Reach.{width, widest, device_at, read_place, target_place};
ghost use Rattle.cvc_law.specs.ReachWord.{word_of};
ghost use Rattle.cvc_core.specs.declared.actor.Intent.TheVariants.{Read, Widen, TakeCredit, Queue, Release, GiveCredit, AskCount, LookAt, Peek};
ghost use Rattle.cvc_core.specs.declared.actor.Actor.TheVariants.{Idle};
ghost use Rattle.cvc_core.specs.State.{BoundWord, run_of, offer, next_device};
ghost use Rattle.cvc_core.specs.Steps.{IsAllowed, is_queued};
ghost use Rattle.cvc_field.specs.Views.{advance, take_or_look, Told, IsBoundWord};
ghost use Rattle.cvc_field.specs.Runs.{Goes};
ghost use Rattle.cvc_field.specs.Seats.{IsSeatOf};

use crate::field::Field;
use crate::view::View;
use atomic_table::Seat;
use cvc_base::DevId;
use cvc_core::Intent;
use std::marker::Brand;

impl<'c> Field<'c> {
    /// Where the word of a bound lies.
    fn bound_word(&self, bound: usize) -> usize
        requires { bound < width self.now.circuit.now }
        ensures { (result ≡ 1 + bound) × (result < self.now.table.shared.table_id.words) }
    {
        let _circuit = self.circuit.nets();
        1 + bound
    }

    /// Where the word of a mark lies.
    fn mark_word(&self, d: DevId) -> usize
        requires { d.0 < devices self.now.circuit.now }
        ensures { (result ≡ 1 + width self.now.circuit.now + d.0) × (result < self.now.table.shared.table_id.words) }
    {
        1 + 2 * self.circuit.nets() as usize + d.0 as usize
    }

    /// Loads a bound that the seat's device reads.
    pub(crate) fn load(&self, seat: &mut Seat<(), View>, bound: usize, read: u8) -> u64
        requires seat { IsSeatOf self.now seat.old }
        requires bound { (bound < width self.now.circuit.now)
            × (bound ≡ read_place (device_at self.now.circuit.now (run_of seat.old.me.0.actor).device.0) read) }
        requires allowed { (x : ℕ) → IsAllowed self.now.circuit.now (Read read) seat.old.me.0.actor x }
        ensures seat { IsSeatOf self.now seat.new }
        ensures step { seat.new.me.0 ≡ advance (Read read) seat.old.me.0 result }
        ensures goes { Goes seat.old.me.0 seat.new.me.0 [] }
        ensures word { IsBoundWord self.now.circuit.now (bound % 2) result }
    {
        let word = self.bound_word(bound);
        self.load_as::<Brand>(seat, word, Intent::Read(read))
    }

    /// Lowers the low that an even slot gives to.
    pub(crate) fn lower(
        &self,
        seat: &mut Seat<(), View>,
        bound: usize,
        slot: u8,
        operand: u64,
    ) -> u64
        requires seat { IsSeatOf self.now seat.old }
        requires bound { (bound < width self.now.circuit.now)
            × (bound ≡ target_place (device_at self.now.circuit.now (run_of seat.old.me.0.actor).device.0) slot) × (slot % 2 ≡ 0) }
        requires operand { (operand ≡ word_of self.now.circuit.now 0 (offer self.now.circuit.now (run_of seat.old.me.0.actor) slot))
            × (offer self.now.circuit.now (run_of seat.old.me.0.actor) slot ≤ widest self.now.circuit.now) }
        requires allowed { (x : ℕ) → IsAllowed self.now.circuit.now (Widen slot) seat.old.me.0.actor x }
        ensures seat { IsSeatOf self.now seat.new }
        ensures step { seat.new.me.0 ≡ advance (Widen slot) seat.old.me.0 result }
        ensures goes { Goes seat.old.me.0 seat.new.me.0 [] }
        ensures word { IsBoundWord self.now.circuit.now (bound % 2) result }
    {
        let word = self.bound_word(bound);
        self.fetch_min_as::<Brand>(seat, word, Intent::Widen(slot), operand)
    }

    /// Raises the high that an odd slot gives to.
    pub(crate) fn raise(
        &self,
        seat: &mut Seat<(), View>,
        bound: usize,
        slot: u8,
        operand: u64,
    ) -> u64
        requires seat { IsSeatOf self.now seat.old }
        requires bound { (bound < width self.now.circuit.now)
            × (bound ≡ target_place (device_at self.now.circuit.now (run_of seat.old.me.0.actor).device.0) slot) × (slot % 2 ≡ 1) }
        requires operand { (operand ≡ word_of self.now.circuit.now 1 (offer self.now.circuit.now (run_of seat.old.me.0.actor) slot))
            × (offer self.now.circuit.now (run_of seat.old.me.0.actor) slot ≤ widest self.now.circuit.now) }
        requires allowed { (x : ℕ) → IsAllowed self.now.circuit.now (Widen slot) seat.old.me.0.actor x }
        ensures seat { IsSeatOf self.now seat.new }
        ensures step { seat.new.me.0 ≡ advance (Widen slot) seat.old.me.0 result }
        ensures goes { Goes seat.old.me.0 seat.new.me.0 [] }
        ensures word { IsBoundWord self.now.circuit.now (bound % 2) result }
    {
        let word = self.bound_word(bound);
        self.fetch_max_as::<Brand>(seat, word, Intent::Widen(slot), operand)
    }

    /// Takes a credit.
    pub(crate) fn add(&self, seat: &mut Seat<(), View>) -> u64
        requires seat { IsSeatOf self.now seat.old }
        requires allowed { (x : ℕ) → IsAllowed self.now.circuit.now TakeCredit seat.old.me.0.actor x }
        ensures seat { IsSeatOf self.now seat.new }
        ensures step { seat.new.me.0 ≡ advance TakeCredit seat.old.me.0 result }
        ensures goes { Goes seat.old.me.0 seat.new.me.0 [] }
    {
        let _circuit = self.circuit.nets();
        self.fetch_add_as::<Brand>(seat, 0, Intent::TakeCredit, 1)
    }

    /// Gives a credit back.
    pub(crate) fn subtract(&self, seat: &mut Seat<(), View>) -> u64
        requires seat { IsSeatOf self.now seat.old }
        requires allowed { (x : ℕ) → IsAllowed self.now.circuit.now GiveCredit seat.old.me.0.actor x }
        ensures seat { IsSeatOf self.now seat.new }
        ensures step { seat.new.me.0 ≡ advance GiveCredit seat.old.me.0 result }
        ensures goes { Goes seat.old.me.0 seat.new.me.0 [] }
    {
        let _circuit = self.circuit.nets();
        self.fetch_sub_as::<Brand>(seat, 0, Intent::GiveCredit, 1)
    }

    /// Marks the device that the seat's actor owes next.
    pub(crate) fn set_queued(&self, seat: &mut Seat<(), View>, d: DevId) -> u64
        requires seat { IsSeatOf self.now seat.old }
        requires device { (d.0 < devices self.now.circuit.now) × (d.0 ≡ next_device self.now.circuit.now (run_of seat.old.me.0.actor)) }
        requires allowed { (x : ℕ) → IsAllowed self.now.circuit.now Queue seat.old.me.0.actor x }
        ensures seat { IsSeatOf self.now seat.new }
        ensures step { seat.new.me.0 ≡ advance Queue seat.old.me.0 result }
        ensures goes { Goes seat.old.me.0 seat.new.me.0 (if is_queued result then [] else d ∷ []) }
    {
        let word = self.mark_word(d);
        self.fetch_or_as::<Brand>(seat, word, Intent::Queue, 1)
    }

    /// Takes a device where its mark is plain Queued.
    pub(crate) fn take(&self, seat: &mut Seat<(), View>, d: DevId) -> u64
        requires seat { IsSeatOf self.now seat.old }
        requires device { d.0 < devices self.now.circuit.now }
        requires idle { seat.old.me.0.actor ≡ Idle 0 }
        ensures seat { IsSeatOf self.now seat.new }
        ensures step { seat.new.me.0 ≡ advance (take_or_look d result) seat.old.me.0 result }
    {
        let word = self.mark_word(d);
        let (meant, other) = (Intent::Claim(d), Intent::LookAt(d));
        self.compare_exchange_as::<Brand>(seat, word, meant, other, 1, 2)
    }

    /// Clears the Running of the device that the seat's actor runs.
    pub(crate) fn drop_running(&self, seat: &mut Seat<(), View>, d: DevId) -> u64
        requires seat { IsSeatOf self.now seat.old }
        requires device { (d.0 < devices self.now.circuit.now) × (d.0 ≡ (run_of seat.old.me.0.actor).device.0) }
        requires allowed { (x : ℕ) → IsAllowed self.now.circuit.now Release seat.old.me.0.actor x }
        ensures seat { IsSeatOf self.now seat.new }
        ensures step { seat.new.me.0 ≡ advance Release seat.old.me.0 result }
        ensures goes { Goes seat.old.me.0 seat.new.me.0 [] }
    {
        let word = self.mark_word(d);
        self.fetch_and_as::<Brand>(seat, word, Intent::Release, 1)
    }

    /// Loads the count.
    pub(crate) fn read_count(&self, seat: &mut Seat<(), View>) -> u64
        requires seat { IsSeatOf self.now seat.old }
        requires idle { seat.old.me.0.actor ≡ Idle 0 }
        ensures seat { IsSeatOf self.now seat.new }
        ensures step { seat.new.me.0 ≡ advance AskCount seat.old.me.0 result }
    {
        self.load_as::<Brand>(seat, 0, Intent::AskCount)
    }

    /// Loads a device's mark.
    pub(crate) fn look(&self, seat: &mut Seat<(), View>, d: DevId) -> u64
        requires seat { IsSeatOf self.now seat.old }
        requires device { d.0 < devices self.now.circuit.now }
        requires idle { seat.old.me.0.actor ≡ Idle 0 }
        ensures seat { IsSeatOf self.now seat.new }
        ensures step { seat.new.me.0 ≡ advance (LookAt d) seat.old.me.0 result }
    {
        let word = self.mark_word(d);
        self.load_as::<Brand>(seat, word, Intent::LookAt(d))
    }

    /// Loads a bound between two runs.
    pub(crate) fn peek(&self, seat: &mut Seat<(), View>, bound: u32) -> u64
        requires seat { IsSeatOf self.now seat.old }
        requires bound { bound < width self.now.circuit.now }
        requires idle { seat.old.me.0.actor ≡ Idle 0 }
        ensures seat { IsSeatOf self.now seat.new }
        ensures step { seat.new.me.0 ≡ advance (Peek bound) seat.old.me.0 result }
        ensures told { Told self.now.circuit.now seat.old.me.0.trail (BoundWord bound) result }
    {
        let word = self.bound_word(bound as usize);
        self.load_as::<Brand>(seat, word, Intent::Peek(bound))
    }
}
