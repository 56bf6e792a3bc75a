//! Model files: which voltages the devices of a model bear, by rows that may depend on the devices' parameters.
//!
//! `read_models` answers the rows of a file, or its first fault, and `Models::choose` the row of a device, exactly as the written
//! definitions in `specs/` say.
#![tactic(auto)]

mod choosing;
mod draft;
mod index;
mod item;
mod key;
mod models;
mod reading;
mod row;
mod value;
mod voltages;
mod words;

pub use models::{Choice, Models};
pub use reading::read_models;
pub use row::{ModelRow, Test, Tests};
