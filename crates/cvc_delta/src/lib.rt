//! Edit sessions: a design and a list of declared rows that is edited, with what the last recheck found.
#![tactic(auto)]

mod edit;
mod fault;
mod found;
pub mod laws;
mod left;
mod reading;
mod rows;
mod session;

pub use edit::{Edit, Edits};
pub use fault::{EditRefusal, EditsCause, EditsFault, EditsRefusal};
pub use reading::read_edits;
pub use session::Session;
