//! The one-thread engine: it settles a circuit at its least closed voltage family, from its declarations or from a family within the least one, and
//! derives that family line by line. The module `laws` says what derivations and wider supplies mean for the least family.
#![tactic(auto)]

mod engine;
pub mod laws;
mod log;
mod pending;
mod routes;
mod settle;
mod start;
mod waiting;
mod widen;

pub use log::{Log, LogLine};
pub use settle::{derive, settle_from, settle_serial};
