//! Laws of texts that are put. Each is the contract of a function that does nothing.
ghost use Rattle.std.specs.Prelude.{◌≡◌, ℕ, List, [], ◌++◌, Option, Result, Ok, Err};
ghost use Rattle.cvc_io.specs.declared.error.WriteFailed.{WriteFailed};
ghost use Rattle.cvc_io.specs.Bytes.{WritesText, WritesPart};
ghost use Rattle.cvc_io.specs.Causes.{HasCause};
ghost use Rattle.cvc_text.specs.Putting.{Stand, stand, Puts, HasPut};

/// Texts that are put one behind another are put as the one text of both, also where a write failed in the second. Where one failed in the first, the
/// same is put of both, whatever was to come. Where all stays as it was, nothing was put.
pub fn texts_are_put_one_behind_another()
    ensures none { (s : Stand) → HasPut s s [] }
    ensures both { (u : Unit {0}) (r : Result (Unit {0}) WriteFailed) (a b c : Stand) (x y : List ℕ)
        → Puts {T = Unit {0}} {E = WriteFailed} (Ok u) a b x → Puts r b c y → Puts r a c (x ++ y) }
    ensures stopped { (e f : WriteFailed) (a b : Stand) (x y : List ℕ)
        → Puts {T = Unit {0}} (Err e) a b x → Puts {T = Unit {0}} (Err f) a b (x ++ y) }
{}

/// A text that is put where nothing waits, and flushed, is written. Where a write failed in putting it, a part of it is.
pub fn a_text_that_is_put_and_flushed_is_written()
    ensures flushed { (u : Unit {0}) (r : Result (Unit {0}) WriteFailed) (a b : Stand) (after : Option (List ℕ)) (text : List ℕ) → a.waiting ≡ []
        → Puts {T = Unit {0}} {E = WriteFailed} (Ok u) a b text → WritesText b.written after r b.waiting → WritesText a.written after r text }
    ensures stopped { (e : WriteFailed) (a b : Stand) (text : List ℕ) → a.waiting ≡ []
        → Puts {T = Unit {0}} (Err e) a b text → WritesPart a.written b.written text }
{}

/// What is written while nothing waits is put.
pub fn a_text_that_is_written_is_put()
    ensures { (r : Result (Unit {0}) WriteFailed) (before after : Option (List ℕ)) (early late : ℕ) (text : List ℕ)
        → WritesText before after r text → HasCause early late r → Puts r (stand before [] early) (stand after [] late) text }
{}
