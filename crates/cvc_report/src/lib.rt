//! The printed texts of a check: refusal lines, summaries and reports, written to a sink in large pieces. No call takes memory.
#![tactic(auto)]

mod counts;
mod findings;
mod nets;
mod printed;
mod refusal;
mod report;
mod summary;

pub use refusal::{write_line_refusal, write_refusal, write_word_refusal};
pub use report::write_report;
pub use summary::write_summary;
