//! Circuits, what their devices conduct, and the laws of closed voltage families.
//! Every other crate that speaks of voltages cites the definitions of this one.
#![tactic(auto)]

mod circuit;
mod close;
mod conduct;
mod conductor;
mod device;
mod family;
mod fans;
mod interval;
pub mod laws;
mod range;

pub use circuit::Circuit;
pub use close::closed_at;
pub use conduct::gives;
pub use conductor::Conductor;
pub use device::Device;
pub use family::Family;
pub use interval::{Fixed, Interval, Reads};
