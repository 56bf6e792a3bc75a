//! A circuit of any size, from a number: the netlist, the models and the power file of a chain of stages.
//!
//! `netlist_of` answers exactly the texts of the written definition in `specs/`.
#![tactic(auto)]

mod stages;

pub use stages::{Generated, netlist_of};
