//! The shared field: the bounds, marks and count of a circuit in shared words, on which any number of hands step at once.
#![tactic(auto)]

mod close;
mod closed;
mod events;
mod field;
mod give;
mod hand;
mod load;
mod opening;
mod places;
mod plays;
mod ranges;
mod read;
mod run;
mod steps;
mod tray;
mod turn;
mod view;
mod words;

pub use closed::Closed;
pub use field::Field;
pub use hand::Hand;
pub use plays::{Cut, FieldRule, Means};
pub use tray::Tray;
pub use turn::{Turn, TurnOn};
pub use view::{Entry, Plan, View};
