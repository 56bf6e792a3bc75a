//! Binding: the circuit of a flat list, model rows and power rows, or the first fault; and the nets that the names of rows find.
//!
//! `bind` and `nets_of` answer exactly as the written definitions in `specs/` say.
#![tactic(auto)]

mod binding;
mod declared;
mod devices;
mod nets;

pub use binding::bind;
pub use nets::{Misnamed, Named, nets_of};
