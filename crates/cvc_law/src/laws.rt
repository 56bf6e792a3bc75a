//! Laws of conduction and of voltage families. Each is the contract of a function that does nothing.
ghost use Rattle.std.specs.Prelude.{◌≡◌, ◌↔◌, ℕ, ◌<◌, ◌%◌, ℤ, pos, ◌≤ℤ◌, List, Some, IsSomeAnd};
ghost use Rattle.cvc_law.specs.declared.device.Device.{Device};
ghost use Rattle.cvc_law.specs.declared.interval.Interval.{Interval};
ghost use Rattle.cvc_law.specs.declared.interval.Reads.{Reads};
ghost use Rattle.cvc_law.specs.Network.{Network, IsCircuit};
ghost use Rattle.cvc_law.specs.Family.{IsFamily, IsWithin};
ghost use Rattle.cvc_law.specs.Conduction.{given};
ghost use Rattle.cvc_law.specs.Least.{IsClosed, IsLeast};
ghost use Rattle.cvc_law.specs.Monotone.{AreInRange, AreAsWide, TakesIn};
ghost use Rattle.cvc_law.specs.Reach.{reach_of, reach_given, reaches_of_reads};
ghost use Rattle.cvc_law.specs.BothForms.{GivenReachIsOfTheValue, GivenValueIsOfTheReach, GivenReachIsAtMostWidest};
ghost use Rattle.cvc_law.specs.WordLaws.{WordsTellBounds, WordsTellReaches, WordsAreFew, LeastWordIsWiderLow, GreatestWordIsWiderHigh, LowWordsFall};
ghost use Rattle.cvc_law.specs.WordLaws.{HighWordsRise, DeclaredWordsAreStored};
ghost use Rattle.cvc_law.specs.ReachLeast.{reaches, intervals, IsReachFamily, IsReachWithin, IsReachClosed, IsReachLeast};

/// Conduction is monotone: where all known reads lie from the floor to the ceiling and the reads widen, a value that was given is taken in by the
/// value that is then given. As in every circuit, the drop isn't negative.
pub fn conduction_is_monotone()
    ensures { (c : Network) (d : Device) (slot : ℕ) (r s : Reads) (v : ℤ) → pos 0 ≤ℤ d.volts.drop → AreInRange c r → AreInRange c s → AreAsWide r s
        → given c d slot r ≡ Some v → IsSomeAnd (given c d slot s) (TakesIn slot v) }
{}

/// There is exactly one least family of each circuit.
pub fn there_is_exactly_one_least_family()
    ensures { (c : Network) → IsCircuit c.fixed c.devices → (f : List Interval) × IsLeast c f × ((g : List Interval) → IsLeast c g → g ≡ f) }
{}

/// A closed family that is within the least one is the least one.
pub fn a_closed_family_within_the_least_is_the_least()
    ensures { (c : Network) (f g : List Interval) → IsLeast c f → IsFamily c g → IsClosed c g → IsWithin g f → g ≡ f }
{}

/// The reach form, in which a bound is one number, says the same as the form in millivolts: the reach of what a slot gives is what the slot gives on
/// the reads' reaches; families, within, closed and least agree. Each family in the reach form is that of some intervals.
pub fn the_reach_form_agrees()
    ensures conduction { (c : Network) (d : Device) (slot : ℕ) (r : Reads) → slot < 4 → pos 0 ≤ℤ d.volts.drop → AreInRange c r
        → reach_given c d slot (reaches_of_reads c r) ≡ reach_of c (slot % 2) (given c d slot r) }
    ensures family { (c : Network) (f : List Interval) → IsFamily c f → IsReachFamily c (reaches c f) }
    ensures within { (c : Network) (f g : List Interval) → IsFamily c f → IsWithin f g ↔ IsReachWithin (reaches c f) (reaches c g) }
    ensures closed { (c : Network) (f : List Interval) → IsCircuit c.fixed c.devices → IsFamily c f → IsClosed c f ↔ IsReachClosed c (reaches c f) }
    ensures least { (c : Network) (f : List Interval) → IsCircuit c.fixed c.devices → IsFamily c f → IsLeast c f ↔ IsReachLeast c (reaches c f) }
    ensures back { (c : Network) (f : List ℕ) → IsCircuit c.fixed c.devices → IsReachFamily c f → IsFamily c (intervals c f) × (reaches c (intervals c f) ≡ f) }
{}

/// On reads whose reaches are at most the widest, the reach that a slot gives is that of the value that it gives in millivolts, the value is the
/// bound of that reach, and the reach is at most the widest too.
pub fn a_slot_gives_the_same_in_both_forms()
    ensures reach { GivenReachIsOfTheValue }
    ensures value { GivenValueIsOfTheReach }
    ensures most { GivenReachIsAtMostWidest }
{}

/// Where the floor and the ceiling are voltages, the word of a bound gives the bound and its reach back, and is that of no bound or lies from 1 to 2,000,001.
/// The lesser of two words of a low, and the greater of two words of a high, is the word of the wider bound. A strictly wider bound has a strictly
/// lesser or greater word, and only it has. The word of what a net is declared at stores just that.
pub fn words_are_in_the_order_of_bounds()
    ensures bound { WordsTellBounds }
    ensures reach { WordsTellReaches }
    ensures few { WordsAreFew }
    ensures least { LeastWordIsWiderLow }
    ensures greatest { GreatestWordIsWiderHigh }
    ensures falls { LowWordsFall }
    ensures rises { HighWordsRise }
    ensures declared { DeclaredWordsAreStored }
{}
