//! Why lists of modes are refused.

use cvc_base::Cause;
use cvc_rows::{LineFault, Refused};

/// Why a row of a list is refused.
#[derive(Clone, Copy, Debug, PartialEq, Eq)]
pub enum ListCause {
    /// As the rows of other files are.
    Text(Cause),
    /// Sixteen rows stand before it.
    TooMany,
}

/// A fault of a list: its line, from 1, and its cause.
pub type ListFault = LineFault<ListCause>;

/// Why there is no list: its first fault, or want of memory.
pub type ListRefusal = Refused<ListFault>;

impl ListCause {
    ghost use Rattle.std.specs.Prelude.{◌≡◌};
    ghost use Rattle.cvc_modes.specs.Words.{word_of};

    /// The word that is printed for it.
    pub fn word(&self) -> &'static [u8]
        ensures { result.now ≡ word_of self.now }
    {
        match self {
            ListCause::Text(cause) => cause.word(),
            ListCause::TooMany => b"too-many-modes",
        }
    }
}
