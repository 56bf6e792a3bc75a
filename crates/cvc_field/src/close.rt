//! A field is closed by the hand that has all its numbers.
ghost use Rattle.std.specs.Prelude.{◌≡◌, ℕ, ℤ, ◌<◌, List, Some, true, false};
ghost use Rattle.cvc_law.specs.declared.interval.Interval.{Interval};
ghost use Rattle.cvc_law.specs.Network.{nets, is_declared};
ghost use Rattle.cvc_law.specs.Family.{interval_at, IsFamily, IsWithin};
ghost use Rattle.cvc_law.specs.Least.{IsClosed, IsLeast};
ghost use Rattle.cvc_law.specs.Reach.{bound_on, reach_of};
ghost use Rattle.cvc_field.specs.Trail.{is_quiet, gave};
ghost use Rattle.cvc_field.specs.Seats.{IsHandOf, hands_of, side_number, bound_index};
ghost use Rattle.cvc_field.specs.Closings.{nets_in, family_of, HasHistory};

use crate::closed::Closed;
use crate::field::Field;
use crate::hand::Hand;
use crate::read::bound_index;
use crate::words::bound_in;
use cvc_base::{Mv, NetId, Side};

impl Closed {
    /// The last bound of a net, in millivolts: `None` where it is unknown.
    pub fn bound(&self, n: NetId, side: Side) -> Option<Mv>
        requires { n.0 < nets_in self.now }
        ensures { result ≡ bound_on (side_number side) (interval_at (family_of self.now) n.0) }
    {
        let bound = bound_index(n, side) as usize;
        bound_in(bound, self.table.word(1 + bound))
    }
}

impl<'c> Field<'c> {
    /// Ends the field, by a hand that has all its numbers.
    /// The bounds are within every closed family, and where the hand was quiet they are the least one.
    /// The hand's trail is what some history of the machine says of it, each step of which was allowed when it was made and found the word that it acts on;
    /// that history leads to these bounds.
    /// Each known bound of a net that isn't declared is a value that a step of the hand, or of one that it took in, gave to it.
    pub fn close(self, hand: Hand) -> Closed
        requires hand { IsHandOf self hand }
        requires whole { (hand.first ≡ 0) × (hand.numbers ≡ hands_of self) }
        ensures nets { nets_in result ≡ nets self.entry.circuit.now }
        ensures family { IsFamily self.entry.circuit.now (family_of result) }
        ensures within { (f : List Interval) → IsFamily self.entry.circuit.now f → IsClosed self.entry.circuit.now f → IsWithin (family_of result) f }
        ensures least { is_quiet hand.trail ≡ true → IsLeast self.entry.circuit.now (family_of result) }
        ensures history { HasHistory self.entry.circuit.now hand.numbers hand.trail (family_of result) }
        ensures given { (n : ℕ) (side : Side) (v : ℤ) → n < nets self.entry.circuit.now → is_declared self.entry.circuit.now n ≡ false
            → bound_on (side_number side) (interval_at (family_of result) n) ≡ Some v
            → gave (bound_index n side) (reach_of self.entry.circuit.now (side_number side) (Some v)) hand.trail ≡ true }
    {
        let Field { circuit, table } = self;
        let nets = circuit.nets();
        let (seat, _, _) = hand.into_parts();
        let table = table.close_with(seat);
        Closed { table, nets }
    }
}
