//! The numbers of a hand are cut in two, and those of two hands are put together.
ghost use Rattle.std.specs.Prelude.{◌≡◌, ◌+◌, ◌-◌, ◌<◌, ◌++◌, ◌||◌, true};
ghost use Rattle.cvc_core.specs.declared.actor.Actor.TheVariants.{Idle};
ghost use Rattle.cvc_field.specs.Trail.{is_quiet};
ghost use Rattle.cvc_field.specs.Views.{left_of, right_of, both_of};
ghost use Rattle.cvc_field.specs.Seats.{IsSeatOf, IsHandOf};

use crate::field::Field;
use crate::hand::Hand;
use crate::plays::{Cut, Cuts, Puts};
use crate::view::View;
use atomic_table::Seat;
use std::marker::Brand;

/// Whether one of two is so.
pub(crate) fn either(a: bool, b: bool) -> bool
    ensures { result ≡ (a || b) }
{
    a || b
}

impl<'c> Field<'c> {
    fn cut_at<W: Cut>(&self, seat: &mut Seat<(), View>, left: u32) -> Seat<(), View>
        requires seat { IsSeatOf self.now seat.old }
        requires idle { seat.old.me.0.actor ≡ Idle 0 }
        requires at { (0 < W.at) × (W.at < seat.old.me.0.numbers) }
        ensures first { IsSeatOf self.now seat.new × (seat.new.me.0 ≡ left_of W.at seat.old.me.0) }
        ensures second { IsSeatOf self.now result × (result.me.0 ≡ right_of W.at seat.old.me.0) }
    {
        self.table.shared.split_seat::<Cuts<W>>(seat)
    }

    fn put_together(&self, seat: &mut Seat<(), View>, other: Seat<(), View>)
        requires seats { IsSeatOf self.now seat.old × IsSeatOf self.now other }
        requires idle { (seat.old.me.0.actor ≡ Idle 0) × (other.me.0.actor ≡ Idle 0) }
        requires next { other.me.0.first ≡ seat.old.me.0.first + seat.old.me.0.numbers }
        ensures seat { IsSeatOf self.now seat.new × (seat.new.me.0 ≡ both_of seat.old.me.0 other.me.0) }
    {
        self.table.shared.join_seat::<Puts>(seat, other);
    }

    /// Two hands: the first keeps the first `left` numbers, the second gets the rest. Both keep what the hand had seen.
    pub fn split(&self, hand: Hand, left: u32) -> (Hand, Hand)
        requires hand { IsHandOf self.now hand }
        requires left { (0 < left) × (left < hand.numbers) }
        ensures first { IsHandOf self.now result.0 × (result.0 ≡ record hand { numbers = left }) }
        ensures second { IsHandOf self.now result.1 × (result.1 ≡ record hand { first = hand.first + left; numbers = hand.numbers - left }) }
    {
        let (mut seat, numbers, quiet) = hand.into_parts();
        let other = self.cut_at::<Brand>(&mut seat, left);
        (
            Hand::of(seat, left, quiet),
            Hand::of(other, numbers - left, quiet),
        )
    }

    /// One hand with the numbers of two, the second of which begins where the first ends. It keeps what both had seen.
    pub fn join(&self, first: Hand, second: Hand) -> Hand
        requires hands { IsHandOf self.now first × IsHandOf self.now second }
        requires next { second.first ≡ first.first + first.numbers }
        ensures quiet { (is_quiet first.trail ≡ true → is_quiet result.trail ≡ true) × (is_quiet second.trail ≡ true → is_quiet result.trail ≡ true) }
        ensures hand { IsHandOf self.now result × (result ≡ record first { numbers = first.numbers + second.numbers; trail = first.trail ++ second.trail }) }
    {
        let (mut seat, numbers, quiet) = first.into_parts();
        let (other, more, also) = second.into_parts();
        self.put_together(&mut seat, other);
        Hand::of(seat, numbers + more, either(quiet, also))
    }
}
