//! Expected bounds: what a designer says that nets should reach, and where the least voltage family differs from it.
//!
//! `read_expected` answers the rows of a file, or its first fault; `list_missed` the bounds that differ from what is expected; and `write_missed`
//! writes them. All are exactly as the written definitions in `specs/` say.
#![tactic(auto)]

mod listing;
mod missed;
mod reading;
mod refused;
mod row;
mod text;

pub use listing::list_missed;
pub use missed::{Missed, MissedList};
pub use reading::read_expected;
pub use refused::{ExpectFault, ExpectRefusal};
pub use row::{Bound, ExpectRow, Expected};
pub use text::write_missed;
