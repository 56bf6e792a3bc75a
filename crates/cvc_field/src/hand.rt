//! A hand: a seat between two runs.
ghost use Rattle.std.specs.Prelude.{◌≡◌};

use crate::view::View;
use atomic_table::Seat;
use std::marker::Model;

/// A range of the actor numbers of one field. Whoever has it may step on the field's words.
/// Contracts see its numbers and its trail, the list of its own steps with the words that they returned.
pub struct Hand {
    pub(crate) seat: Seat<(), View>,
    pub(crate) numbers: u32,
    pub(crate) quiet: bool,
}

impl Model for Hand {
    ghost use Rattle.cvc_field.specs.Hands.{HandView};

    ghost Value = { HandView };

    ghost use Rattle.cvc_field.specs.Hands.{IsWithin, hand_of};

    ghost view = { λ h. hand_of h.seat };

    ghost invariant = { λ h. IsWithin (hand_of h.seat) h.seat h.numbers h.quiet };
}

impl Hand {
    ghost use Rattle.cvc_field.specs.Hands.{IsWithin, hand_of};
    ghost use Rattle.cvc_field.specs.Trail.{is_quiet};

    /// The hand of a seat between two runs.
    pub(crate) fn of(seat: Seat<(), View>, numbers: u32, quiet: bool) -> Hand
        requires { IsWithin (hand_of seat) seat numbers quiet }
        ensures { result ≡ hand_of seat }
    {
        Hand {
            seat,
            numbers,
            quiet,
        }
    }

    /// Its seat, how many numbers it has, and whether it is quiet.
    pub(crate) fn into_parts(self) -> (Seat<(), View>, u32, bool)
        ensures { IsWithin self result.0 result.1 result.2 }
    {
        let Self {
            seat,
            numbers,
            quiet,
        } = self;
        (seat, numbers, quiet)
    }

    /// How many actor numbers the hand has. It makes no step.
    pub fn numbers(&self) -> u32
        ensures { result ≡ self.now.numbers }
    {
        self.numbers
    }

    /// Whether a step of the hand, or of a hand that it came from or took in, read a count of 0.
    pub fn is_quiet(&self) -> bool
        ensures { result ≡ is_quiet self.now.trail }
    {
        self.quiet
    }
}

impl Drop for Hand {
    fn drop(self) {
        let Self {
            seat: _,
            numbers: _,
            quiet: _,
        } = self;
    }
}
