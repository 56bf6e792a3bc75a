//! Power modes: one design under several power files, all settled at once.
//!
//! `read_modes` answers the modes of a list, or its first fault; `check_modes` the circuit, the least family and the findings of each mode, or the
//! first mode whose power rows don't bind; `write_modes` writes the report of each, one behind another.
#![tactic(auto)]

mod check;
mod checked;
mod fault;
mod gate;
mod reading;
mod row;
mod text;

pub use check::check_modes;
pub use checked::{ModeRefusal, ModeResult, ModeResults, Powers};
pub use fault::{ListCause, ListFault, ListRefusal};
pub use gate::{ModeGate, NoModeGate};
pub use reading::read_modes;
pub use row::{ModeList, ModeRow};
pub use text::write_modes;
