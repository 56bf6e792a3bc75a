//! What is found in each mode.

use cvc_base::{Fault, ItemList, NoMemory};
use cvc_judge::Judged;
use cvc_power::Power;

/// A mode's circuit, its least voltage family, and all findings there in the report's order.
pub type ModeResult = Judged;

/// What is found in each mode, in order.
pub type ModeResults = ItemList<ModeResult>;

/// The power rows of each mode, in order.
pub type Powers = ItemList<Power>;

/// Why modes are not checked.
#[derive(Clone, Copy, Debug, PartialEq, Eq)]
pub enum ModeRefusal {
    /// The first mode whose power rows don't bind, by its number from 0, and the fault.
    At(u32, Fault),
    NoMemory,
}

impl From<NoMemory> for ModeRefusal {
    ghost use Rattle.std.specs.Prelude.{◌≡◌};
    ghost use Rattle.cvc_modes.specs.declared.checked.ModeRefusal.TheVariants as refusals;

    ghost from_gives = { λ _ refusal. refusal ≡ refusals.NoMemory };

    fn from(_: NoMemory) -> ModeRefusal {
        ModeRefusal::NoMemory
    }
}
