//! The flat list of a netlist: its hierarchy resolved to nets, devices and their parameters.
//! What a flat list is, and which netlist has which, is written in `specs/`; `flatten` makes one, and `Flat` answers what one holds.
#![tactic(auto)]

mod find;
mod finder;
mod flat;
mod group_table;
mod hashes;
mod nets;
mod printing;
mod resolve;
mod rows;
mod shared;
mod steps;
mod walk;
mod way;

pub use flat::Flat;
pub use printing::Pieces;
pub use walk::flatten;
