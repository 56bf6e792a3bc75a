//! Netlists: the cells, devices and instances of a list of cards, or its first fault; and the text that reads back as a netlist.
#![tactic(auto)]

mod builder;
mod draft;
mod ending;
mod endless;
mod fault;
pub mod laws;
mod level;
mod library;
mod netlist;
mod text;

pub use builder::Builder;
pub use netlist::{Cell, Cells, Global, Globals, Item, Items, Netlist};
pub use text::netlist_text;
