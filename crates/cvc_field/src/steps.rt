//! Single steps of one seat, each of which is the step of the machine that is meant.
ghost use Rattle.std.specs.Prelude.{◌≡◌, ℕ, ◌+◌, ◌-◌, ◌%◌, ◌^◌, ◌==◌, min, max, bit_and, bit_or};
ghost use prog.Atomic.{either};
ghost use Rattle.cvc_field.specs.Views.{advance, Tells};
ghost use Rattle.cvc_field.specs.Seats.{IsSeatOf, MayMove};

use crate::field::Field;
use crate::plays::{Does, Means};
use crate::view::View;
use atomic_table::Seat;
use cvc_core::Intent;

impl<'c> Field<'c> {
    pub(crate) fn load_as<W: Means>(
        &self,
        seat: &mut Seat<(), View>,
        word: usize,
        meant: Intent,
    ) -> u64
        requires seat { IsSeatOf self.now seat.old }
        requires moves { MayMove self.now seat.old word (λ n. n) W.intent }
        ensures seat { IsSeatOf self.now seat.new }
        ensures step { seat.new.me.0 ≡ advance (W.intent result) seat.old.me.0 result }
        ensures told { Tells (W.intent result) seat.old.me.0 result }
    {
        self.table.shared.load::<Does<W>>(seat, word)
    }

    pub(crate) fn fetch_min_as<W: Means>(
        &self,
        seat: &mut Seat<(), View>,
        word: usize,
        meant: Intent,
        k: u64,
    ) -> u64
        requires seat { IsSeatOf self.now seat.old }
        requires moves { MayMove self.now seat.old word (λ n. min n k) W.intent }
        ensures seat { IsSeatOf self.now seat.new }
        ensures step { seat.new.me.0 ≡ advance (W.intent result) seat.old.me.0 result }
        ensures told { Tells (W.intent result) seat.old.me.0 result }
    {
        self.table.shared.fetch_min::<Does<W>>(seat, word, k)
    }

    pub(crate) fn fetch_max_as<W: Means>(
        &self,
        seat: &mut Seat<(), View>,
        word: usize,
        meant: Intent,
        k: u64,
    ) -> u64
        requires seat { IsSeatOf self.now seat.old }
        requires moves { MayMove self.now seat.old word (λ n. max n k) W.intent }
        ensures seat { IsSeatOf self.now seat.new }
        ensures step { seat.new.me.0 ≡ advance (W.intent result) seat.old.me.0 result }
        ensures told { Tells (W.intent result) seat.old.me.0 result }
    {
        self.table.shared.fetch_max::<Does<W>>(seat, word, k)
    }

    pub(crate) fn fetch_add_as<W: Means>(
        &self,
        seat: &mut Seat<(), View>,
        word: usize,
        meant: Intent,
        k: u64,
    ) -> u64
        requires seat { IsSeatOf self.now seat.old }
        requires moves { MayMove self.now seat.old word (λ n. (n + k) % 2 ^ 64) W.intent }
        ensures seat { IsSeatOf self.now seat.new }
        ensures step { seat.new.me.0 ≡ advance (W.intent result) seat.old.me.0 result }
        ensures told { Tells (W.intent result) seat.old.me.0 result }
    {
        self.table.shared.fetch_add::<Does<W>>(seat, word, k)
    }

    pub(crate) fn fetch_sub_as<W: Means>(
        &self,
        seat: &mut Seat<(), View>,
        word: usize,
        meant: Intent,
        k: u64,
    ) -> u64
        requires seat { IsSeatOf self.now seat.old }
        requires moves { MayMove self.now seat.old word (λ n. (n + (2 ^ 64 - k)) % 2 ^ 64) W.intent }
        ensures seat { IsSeatOf self.now seat.new }
        ensures step { seat.new.me.0 ≡ advance (W.intent result) seat.old.me.0 result }
        ensures told { Tells (W.intent result) seat.old.me.0 result }
    {
        self.table.shared.fetch_sub::<Does<W>>(seat, word, k)
    }

    pub(crate) fn fetch_and_as<W: Means>(
        &self,
        seat: &mut Seat<(), View>,
        word: usize,
        meant: Intent,
        k: u64,
    ) -> u64
        requires seat { IsSeatOf self.now seat.old }
        requires moves { MayMove self.now seat.old word (λ n. bit_and n k) W.intent }
        ensures seat { IsSeatOf self.now seat.new }
        ensures step { seat.new.me.0 ≡ advance (W.intent result) seat.old.me.0 result }
        ensures told { Tells (W.intent result) seat.old.me.0 result }
    {
        self.table.shared.fetch_and::<Does<W>>(seat, word, k)
    }

    pub(crate) fn fetch_or_as<W: Means>(
        &self,
        seat: &mut Seat<(), View>,
        word: usize,
        meant: Intent,
        k: u64,
    ) -> u64
        requires seat { IsSeatOf self.now seat.old }
        requires moves { MayMove self.now seat.old word (λ n. bit_or n k) W.intent }
        ensures seat { IsSeatOf self.now seat.new }
        ensures step { seat.new.me.0 ≡ advance (W.intent result) seat.old.me.0 result }
        ensures told { Tells (W.intent result) seat.old.me.0 result }
    {
        self.table.shared.fetch_or::<Does<W>>(seat, word, k)
    }

    pub(crate) fn compare_exchange_as<W: Means>(
        &self,
        seat: &mut Seat<(), View>,
        word: usize,
        meant: Intent,
        other: Intent,
        old: u64,
        new: u64,
    ) -> u64
        requires seat { IsSeatOf self.now seat.old }
        requires moves { MayMove self.now seat.old word (λ n. either (n == old) new n) W.intent }
        ensures seat { IsSeatOf self.now seat.new }
        ensures step { seat.new.me.0 ≡ advance (W.intent result) seat.old.me.0 result }
        ensures told { Tells (W.intent result) seat.old.me.0 result }
    {
        self.table
            .shared
            .compare_exchange::<Does<W>>(seat, word, old, new)
    }
}
