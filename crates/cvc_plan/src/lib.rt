//! The plan of a netlist: what is kept of its cards, of each once, with their names by numbers.
//! What a net is, and what a plan keeps, is written in `specs/`. `open_plan` begins a plan, `plan_item` and `plan_cell` keep more cards in it, and the nets
//! of pins and ports follow from it.
#![tactic(auto)]

mod cards;
mod names;
mod pins;
mod plan;
mod ports;
mod rows;
mod walked;

pub use cards::{Cards, CellPlan, InstPlan, ItemPlan, OpeningPlan, Plan, cell_of, open_plan};
pub use pins::{Pin, PortPlan};
pub use plan::DevicePlan;
pub use ports::{join, net_of_pin, ports_from, top_ports};
pub use rows::{Connection, DevicePart, InstancePart, NetRow};
pub use walked::{plan_cell, plan_item, planned_item};
