//! A bound is read between two runs.
ghost use Rattle.std.specs.Prelude.{◌≡◌, ℕ, ◌+◌, ◌*◌, ◌%◌, ◌<◌, List, [], ◌∷◌, ◌++◌, IfSome};
ghost use Rattle.cvc_law.specs.declared.interval.Interval.{Interval};
ghost use Rattle.cvc_law.specs.Network.{nets};
ghost use Rattle.cvc_law.specs.Family.{interval_at, IsFamily, IsInRange};
ghost use Rattle.cvc_law.specs.Least.{IsClosed};
ghost use Rattle.cvc_law.specs.Reach.{bound_on, reach_of};
ghost use Rattle.cvc_law.specs.ReachWord.{bound_in};
ghost use Rattle.cvc_field.specs.declared.view.Entry.TheVariants.{Loaded};
ghost use Rattle.cvc_field.specs.Trail.{EachAtMost};
ghost use Rattle.cvc_field.specs.Seats.{IsHandOf, side_number, bound_index, IsBoundWithin};

use crate::field::Field;
use crate::hand::Hand;
use crate::words::bound_in;
use cvc_base::{Mv, NetId, Side};

/// The index of a net's bound.
pub(crate) fn bound_index(n: NetId, side: Side) -> u32
    requires { n.0 < 1000000 }
    ensures index { result ≡ bound_index n.0 side }
    ensures side { result % 2 ≡ side_number side }
{
    match side {
        Side::Low => 2 * n.0,
        Side::High => 2 * n.0 + 1,
    }
}

impl<'c> Field<'c> {
    /// The present bound of a net, in millivolts: `None` where it is unknown. One load.
    /// It is never narrower than what this hand, or those that it came from or took in, had seen of that bound or given to it; and no wider than that
    /// of any closed family, so of the least one: unknown where that one knows none.
    pub fn read(&self, hand: &mut Hand, n: NetId, side: Side) -> Option<Mv>
        requires hand { IsHandOf self.now hand.old }
        requires net { n.0 < nets self.now.circuit.now }
        ensures hand { IsHandOf self.now hand.new }
        ensures range { (hand.new.first ≡ hand.old.first) × (hand.new.numbers ≡ hand.old.numbers) }
        ensures step { (word : ℕ) × (hand.new ≡ record hand.old { trail = hand.old.trail ++ Loaded (bound_index n.0 side) word ∷ [] })
            × (result ≡ bound_in (side_number side) word) }
        ensures seen { EachAtMost self.now.circuit.now (bound_index n.0 side) (reach_of self.now.circuit.now (side_number side) result) hand.old.trail }
        ensures known { IfSome result (IsInRange self.now.circuit.now) }
        ensures within { (f : List Interval) → IsFamily self.now.circuit.now f → IsClosed self.now.circuit.now f
            → IsBoundWithin side result (bound_on (side_number side) (interval_at f n.0)) }
    {
        let _circuit = self.circuit.nets();
        let bound = bound_index(n, side);
        let word = self.peek(&mut hand.seat, bound);
        bound_in(bound as usize, word)
    }
}
