//! The rules about voltages between pins: six limits of overvoltage, forward bias of a diode, and bias of a MOS's junctions.
//! Each finding is where the rule holds of the device, with its limit and the greatest difference that was found.
#![tactic(auto)]

mod at;
mod excess;
mod list;

pub use at::bias_at;
pub use list::{list_bias, par_list_bias};
