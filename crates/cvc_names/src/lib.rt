//! Tables of names, each once, by their places; places by their hashes; and lists of names in which one stands twice.
#![tactic(auto)]

mod borrowed;
mod chains;
mod names;
mod twice;

pub use borrowed::BorrowedNames;
pub use chains::{Chains, hash_of};
pub use names::Names;
pub use twice::has_twice;
