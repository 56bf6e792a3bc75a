//! The outside: a shelf of files to read and a sink of bytes to write, as traits whose contracts count the faults of the
//! outside, with implementations in memory and over the real files and standard output.
#![tactic(auto)]

mod count_sink;
mod error;
mod file_shelf;
mod held;
mod mem_shelf;
mod mem_sink;
mod shelf;
mod sink;
mod std_sink;
mod sure_shelf;

pub use count_sink::CountSink;
pub use error::{OpenFailed, ReadFailed, WriteFailed};
pub use file_shelf::FileShelf;
pub use mem_shelf::MemShelf;
pub use mem_sink::MemSink;
pub use shelf::Shelf;
pub use sink::Sink;
pub use std_sink::StdSink;
pub use sure_shelf::SureShelf;
