//! Power files: the nets that have a declared voltage, one row each.
//!
//! `read_power` answers the rows of a file, or its first fault, exactly as the written definition in `specs/` says.
#![tactic(auto)]

mod reading;
mod row;

pub use reading::{Power, read_power};
pub use row::{PowerRow, Span, span_of};
