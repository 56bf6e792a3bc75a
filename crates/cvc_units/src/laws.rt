ghost use Rattle.std.specs.Prelude.{◌≡◌, ℕ, ◌≢◌, ◌<◌, ◌≤◌, ◌^◌, ◌↔◌, List, Err, Some, IfOk, unsigned_abs};
ghost use Rattle.cvc_units.specs.declared.fault.NumFault.TheVariants.{Shape, TooFine};
ghost use Rattle.cvc_units.specs.Split.{Split, IsSplit, split_of};
ghost use Rattle.cvc_units.specs.Number.{number_of, number_of_split, millivolts_of, millivolts_of_split};

/// A text splits in at most one way, and `split_of` finds that split.
pub fn splits_in_one_way()
    ensures one_way { (text : List ℕ) (p q : Split) → IsSplit text p → IsSplit text q → p ≡ q }
    ensures found { (text : List ℕ) (p : Split) → (split_of text ≡ Some p) ↔ IsSplit text p }
{}

/// The number of a text, and its millivolts, are those of its split, and `Shape` where it has none.
pub fn number_is_of_its_split()
    ensures number { (text : List ℕ) (p : Split) → IsSplit text p → number_of text ≡ number_of_split p }
    ensures millivolts { (text : List ℕ) (p : Split) → IsSplit text p → millivolts_of text ≡ millivolts_of_split p }
    ensures no_number { (text : List ℕ) → ((p : Split) → ¬ IsSplit text p) → number_of text ≡ Err Shape }
    ensures no_millivolts { (text : List ℕ) → ((p : Split) → ¬ IsSplit text p) → millivolts_of text ≡ Err Shape }
{}

/// A number's magnitude is below 10 to the power 36 units, and a voltage's is at most 1000 volts.
pub fn numbers_are_small()
    ensures number { (text : List ℕ) → IfOk (number_of text) (λ n. unsigned_abs n < 10 ^ 36) }
    ensures millivolts { (text : List ℕ) → IfOk (millivolts_of text) (λ v. unsigned_abs v ≤ 1000000) }
    ensures never_too_fine { (text : List ℕ) → number_of text ≢ Err TooFine }
{}
