//! Certificates: a derivation log of a circuit, its text, and the verdict on a log and a report by one who trusts neither.
#![tactic(auto)]

pub mod laws;
mod logs;
mod matching;
mod number;
mod reading;
mod replay;
mod text;
mod verdict;

pub use cvc_serial::laws::a_complete_justified_log_has_the_least_family;
pub use cvc_serial::{Log, LogLine};
pub use logs::prove;
pub use reading::{LogFault, LogRefusal, read_log};
pub use text::write_log;
pub use verdict::{Verdict, verify};
