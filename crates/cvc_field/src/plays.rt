//! The rule of the field's words, and what each step tells.
use crate::view::{Plan, View};
use atomic_table::{Join, Play, Split, TableRule};
use std::marker::{Brand, PhantomData};

/// The words are at every moment a sound field.
pub struct FieldRule;

impl TableRule<(), View, Plan> for FieldRule {
    ghost use Rattle.cvc_field.specs.Field.{IsSoundField};
    ghost use Rattle.cvc_field.specs.Views.{first_view};

    ghost holds = { λ p. IsSoundField p.circuit.value p.hands };

    ghost first = { λ p. first_view p.circuit.value p.hands };
}

/// Which step of the machine is meant, by the word that the step finds.
pub trait Means {
    ghost use Rattle.std.specs.Prelude.{ℕ};
    ghost use Rattle.cvc_core.specs.declared.actor.Intent.{Intent};

    ghost intent: { ℕ → Intent };
}

impl Means for Brand {
    ghost use Rattle.cvc_core.specs.declared.actor.Intent.TheVariants.{AskCount};

    ghost intent = { λ _. AskCount };
}

/// The step that is meant was made, and tells of the word that it found.
pub struct Does<W> {
    intent: PhantomData<W>,
}

impl<W: Means> Play<(), View> for Does<W> {
    ghost use Rattle.std.specs.Prelude.{◌≡◌};
    ghost use Rattle.cvc_field.specs.Views.{advance, Tells};

    ghost then = { λ _ me r after. (after ≡ (advance (W.intent r) me.0 r, me.1)) × Tells (W.intent r) me.0 r };
}

/// Where a range of numbers is cut.
pub trait Cut {
    ghost use Rattle.std.specs.Prelude.{ℕ};

    ghost at: { ℕ };
}

impl Cut for Brand {
    ghost at = { 0 };
}

/// A view is cut in two.
pub struct Cuts<W> {
    at: PhantomData<W>,
}

impl<W: Cut> Split<View> for Cuts<W> {
    ghost use Rattle.cvc_field.specs.Views.{left_of, right_of};

    ghost left = { left_of W.at };

    ghost right = { right_of W.at };
}

/// Two views are put together.
pub struct Puts;

impl Join<View> for Puts {
    ghost use Rattle.cvc_field.specs.Views.{both_of, spent_view};

    ghost both = { both_of };

    ghost spent = { spent_view };
}
