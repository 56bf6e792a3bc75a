//! Why edits are refused.

use cvc_base::{Cause, NoMemory};
use cvc_rows::{LineFault, Refused};

/// Why a row of an edits file is refused.
#[derive(Clone, Copy, Debug, PartialEq, Eq)]
pub enum EditsCause {
    /// As a row of a power file is refused.
    Text(Cause),
    /// It unsets a name that no row has.
    NotThere,
}

/// A fault of an edits file, at its line, from 1.
pub type EditsFault = LineFault<EditsCause>;

/// Why an edits file is not read: its first fault, or want of memory.
pub type EditsRefusal = Refused<EditsFault>;

/// Why an edit changes nothing.
#[derive(Clone, Copy, Debug, PartialEq, Eq)]
pub enum EditRefusal {
    /// The lowest voltage exceeds the highest.
    MinAboveMax,
    /// No row has the name.
    NotThere,
    /// There was no memory.
    NoMemory,
}

impl From<NoMemory> for EditRefusal {
    ghost use Rattle.std.specs.Prelude.{◌≡◌};
    ghost use Rattle.cvc_delta.specs.declared.fault.EditRefusal.TheVariants as refusals;

    ghost from_gives = { λ _ refusal. refusal ≡ refusals.NoMemory };

    fn from(_: NoMemory) -> EditRefusal {
        EditRefusal::NoMemory
    }
}
