//! Files of rows: lines that are judged in order, each by itself and the rows of the lines before it.
//!
//! A kind of file is a `Judge`, whose verdict on a line is a definition; `read_rows` answers the rows of a whole file, or its first fault,
//! exactly as the verdicts say. What the judges share stands here too: words and voltages of tokens.
#![tactic(auto)]

mod judge;
mod reading;
mod refused;
mod tokens;

pub use judge::Judge;
pub use reading::read_rows;
pub use refused::{LineFault, Refused};
pub use tokens::{is_word, read_voltage};
