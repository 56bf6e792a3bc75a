//! Numbers as circuit files write them: `0.2u`, `10uF`, `-.5meg`.
//!
//! `read_number` answers the number of a text and `read_mv` its millivolts, exactly as the written definition in `specs/` says.
//! Neither takes memory, and both are linear in the text.
#![tactic(auto)]

mod fault;
mod laws;
mod magnitude;
mod pieces;
mod power;
mod reading;

pub use fault::NumFault;
pub use laws::{number_is_of_its_split, numbers_are_small, splits_in_one_way};
pub use reading::{read_mv, read_number};

#[cfg(test)]
mod tests;
