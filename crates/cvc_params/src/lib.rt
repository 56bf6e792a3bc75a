//! The parameters of a device, resolved in the instance that it stands in: each value is followed from name to name up to a number or a word.
//! What a name stands for, and which values are loops, is written in `specs/`; `Sight::params_of` resolves the parameters of a device.
#![tactic(auto)]

mod known;
mod level;
mod lookups;
mod pair_index;
mod pair_lists;
mod params;
mod plain;
mod same;

pub use level::Level;
pub use pair_index::{PairIndex, PairIndexes};
pub use pair_lists::{CellLists, PairLists, lists_of};
pub use params::{Lists, Sight};
pub use plain::plain_params;
pub use same::are_same_params;
