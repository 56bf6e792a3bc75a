//! Why a reader has no answer.

use cvc_base::{Cause, Fault, FileKind, NoMemory, Refusal};
use std::alloc::{AllocError, AllocFailed};

/// Why a line of a file is refused. Lines count from 1.
#[derive(Clone, Copy, Debug, PartialEq, Eq)]
pub struct LineFault<C> {
    pub line: u32,
    pub cause: C,
}

/// Why there is no answer: what is wrong with the input, or want of memory.
#[derive(Clone, Copy, Debug, PartialEq, Eq)]
pub enum Refused<F> {
    At(F),
    NoMemory,
}

impl<C> Refused<C> {
    ghost use Rattle.std.specs.Prelude.{◌≡◌};
    ghost use Rattle.cvc_rows.specs.Refusing.{refused_at};

    /// The same of the line with this number.
    pub fn at(self, line: u32) -> Refused<LineFault<C>>
        ensures { result ≡ refused_at line self }
    {
        match self {
            Refused::At(cause) => Refused::At(LineFault { line, cause }),
            Refused::NoMemory => Refused::NoMemory,
        }
    }
}

impl Refused<LineFault<Cause>> {
    ghost use Rattle.std.specs.Prelude.{◌≡◌};
    ghost use Rattle.cvc_rows.specs.Refusing.{refusal_in};

    /// The refusal of an input file that is refused so.
    pub fn of(self, file: FileKind) -> Refusal
        ensures { result ≡ refusal_in file self }
    {
        match self {
            Refused::At(fault) => Refusal::At(Fault::at(file, fault.line, fault.cause)),
            Refused::NoMemory => Refusal::NoMemory,
        }
    }
}

impl From<Cause> for Refused<Cause> {
    ghost use Rattle.std.specs.Prelude.{◌≡◌};
    ghost use Rattle.cvc_rows.specs.declared.refused.Refused.TheVariants as refusals;

    ghost from_gives = { λ cause refused. refused ≡ refusals.At cause };

    fn from(cause: Cause) -> Refused<Cause> {
        Refused::At(cause)
    }
}

impl<F> From<NoMemory> for Refused<F> {
    ghost use Rattle.std.specs.Prelude.{◌≡◌};
    ghost use Rattle.cvc_rows.specs.declared.refused.Refused.TheVariants as refusals;

    ghost from_gives = { λ _ refused. refused ≡ refusals.NoMemory };

    fn from(_: NoMemory) -> Refused<F> {
        Refused::NoMemory
    }
}

impl<F> From<AllocError> for Refused<F> {
    ghost use Rattle.std.specs.Prelude.{◌≡◌};
    ghost use Rattle.cvc_rows.specs.declared.refused.Refused.TheVariants as refusals;

    ghost from_gives = { λ _ refused. refused ≡ refusals.NoMemory };

    fn from(_: AllocError) -> Refused<F> {
        Refused::NoMemory
    }
}

impl<F, T: Drop> From<AllocFailed<T>> for Refused<F> {
    ghost use Rattle.std.specs.Prelude.{◌≡◌};
    ghost use Rattle.cvc_rows.specs.declared.refused.Refused.TheVariants as refusals;

    ghost from_gives = { λ _ refused. refused ≡ refusals.NoMemory };

    fn from(_: AllocFailed<T>) -> Refused<F> {
        Refused::NoMemory
    }
}
