//! Tokens and logical lines.

use crate::{ItemList, Text};

/// A token of an input file, with its physical line and its first byte's column. Both count from 1; columns count bytes.
#[derive(Debug, Drop)]
pub struct Token {
    pub text: Text,
    pub line: u32,
    pub column: u32,
}

/// A list of tokens.
pub type Tokens = ItemList<Token>;

/// A logical line: a card, a directive or a row with its continuations, from its first physical line to its last.
#[derive(Debug, Drop)]
pub struct Line {
    pub tokens: Tokens,
    pub first: u32,
    pub last: u32,
    /// Whether it is a directive, which only a netlist has.
    pub directive: bool,
}
