//! The pure machine: actors that step on shared bounds, marks and a count, and what holds after every list of events.
#![tactic(auto)]

mod actions;
mod actor;
mod dispatch;
mod event;
mod guards;
pub mod laws;
mod machine;
mod offers;
mod opening;
mod runs;
mod scale;
mod state;
mod store;

pub use actor::{Actor, Debt, Intent, Run};
pub use event::{Event, NotEnabled};
pub use machine::{run, step};
pub use opening::start;
pub use state::State;
pub use store::Mark;
