//! Cards: what one logical line of a netlist says, as a device, an instance or a dot card.
//!
//! `read_card` answers the card of a line, or the line's first fault, exactly as the written definition in `specs/` says.
#![tactic(auto)]

mod card;
mod copies;
mod device;
mod dots;
mod form;
mod instance;
mod item;
mod parts;
mod read;
mod words;

pub use card::{Card, CellCard, DeviceCard, InstCard, Letter, Ports};
pub use read::read_card;
