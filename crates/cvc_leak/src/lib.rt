//! The rules about leaks, resistive paths between supplies and gates that nothing drives.
//! A leak is possible where a gate may not reach far enough to turn its MOS off, and sure where that holds at the corner that conducts least.
#![tactic(auto)]

mod at;
mod channel;
mod figures;
pub mod laws;
mod list;

pub use at::leak_at;
pub use list::{list_leak, par_list_leak};
