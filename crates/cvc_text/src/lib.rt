//! Texts on their way to a sink: words and lines of words, which are gathered and handed over in large pieces. No call takes memory.
#![tactic(auto)]

mod buffer;
pub mod laws;
mod line;
mod word;

pub use buffer::{TextBuffer, write_all};
pub use line::write_line;
pub use word::Word;
