//! The words of the command line: the command that they ask for, or the first fault among them.
//!
//! `read_words` answers exactly as the written definition in `specs/` says.
#![tactic(auto)]

mod command;
mod fault;
mod number;
mod options;
mod read;

pub use command::{Command, Job};
pub use fault::{WordFault, WordRefusal};
pub use read::read_words;
