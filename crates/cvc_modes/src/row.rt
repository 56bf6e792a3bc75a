//! Rows of lists of modes.

use cvc_base::{ItemList, Text};

/// A mode by its name, and the name of its power file. `line` is the row's line in the list, from 1.
#[derive(Debug, Drop)]
pub struct ModeRow {
    pub name: Text,
    pub file: Text,
    pub line: u32,
}

/// The rows of a list, in order. No two have one name, and there are at most 16.
pub type ModeList = ItemList<ModeRow>;
