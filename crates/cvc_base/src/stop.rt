//! Why a step stops that doesn't know its place.

use crate::{Cause, Fault, FileKind, NoMemory, Refusal};
use std::alloc::{AllocError, AllocFailed};

/// Why a step of reading stops: a cause, whose place the caller knows, or want of memory.
#[derive(Clone, Copy, Debug, PartialEq, Eq)]
pub enum Stop {
    At(Cause),
    NoMemory,
}

impl Stop {
    ghost use Rattle.std.specs.Prelude.{◌≡◌};
    ghost use Rattle.cvc_base.specs.Faults.{refusal_on};

    /// The refusal where it stops at this line of a file.
    pub fn on(self, file: FileKind, line: u32) -> Refusal
        ensures { result ≡ refusal_on file line self }
    {
        match self {
            Stop::At(cause) => Refusal::At(Fault::at(file, line, cause)),
            Stop::NoMemory => Refusal::NoMemory,
        }
    }
}

impl From<Cause> for Stop {
    ghost use Rattle.std.specs.Prelude.{◌≡◌};
    ghost use Rattle.cvc_base.specs.declared.stop.Stop.TheVariants as stops;

    ghost from_gives = { λ cause stop. stop ≡ stops.At cause };

    fn from(cause: Cause) -> Stop {
        Stop::At(cause)
    }
}

impl From<NoMemory> for Stop {
    ghost use Rattle.std.specs.Prelude.{◌≡◌};
    ghost use Rattle.cvc_base.specs.declared.stop.Stop.TheVariants as stops;

    ghost from_gives = { λ _ stop. stop ≡ stops.NoMemory };

    fn from(_: NoMemory) -> Stop {
        Stop::NoMemory
    }
}

impl From<AllocError> for Stop {
    ghost use Rattle.std.specs.Prelude.{◌≡◌};
    ghost use Rattle.cvc_base.specs.declared.stop.Stop.TheVariants as stops;

    ghost from_gives = { λ _ stop. stop ≡ stops.NoMemory };

    fn from(_: AllocError) -> Stop {
        Stop::NoMemory
    }
}

impl<T: Drop> From<AllocFailed<T>> for Stop {
    ghost use Rattle.std.specs.Prelude.{◌≡◌};
    ghost use Rattle.cvc_base.specs.declared.stop.Stop.TheVariants as stops;

    ghost from_gives = { λ _ stop. stop ≡ stops.NoMemory };

    fn from(_: AllocFailed<T>) -> Stop {
        Stop::NoMemory
    }
}
