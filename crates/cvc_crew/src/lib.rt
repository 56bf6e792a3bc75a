//! The crew: any number of workers settle a circuit together on its shared field.
//! Each has a deque of devices to try next, from which the others steal. Nothing that a deque holds decides an answer: the marks of the field say
//! what is left to do, and its count says when nothing is.
#![tactic(auto)]

mod deques;
mod gate;
mod halves;
mod places;
mod settling;
mod shared;
mod shares;
mod tally;
mod turns;
mod working;

pub use gate::{Gate, NoGate};
pub use settling::{settle, settle_tally};
pub use tally::Tally;
pub use working::{Unworked, work};
