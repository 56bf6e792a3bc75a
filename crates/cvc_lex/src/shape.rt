//! What a physical line is.

/// What a physical line is, by its text as cut.
#[derive(Clone, Copy, Debug, PartialEq, Eq)]
pub(crate) enum Shape {
    /// Blank or a comment.
    Skipped,
    /// The start of a directive, which only a netlist has.
    Directive,
    /// The start of a card, or a row of another file.
    Card,
    /// A continuation, which only a netlist has.
    Continuation,
}
