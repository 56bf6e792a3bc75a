//! Pairs of a card, and parameters with their values.

use crate::{ItemList, Text};

/// A name and a value as a card writes them.
#[derive(Debug, Drop)]
pub struct Pair {
    pub name: Text,
    pub value: Text,
}

/// A list of pairs.
pub type Pairs = ItemList<Pair>;

/// The value of a parameter.
#[derive(Debug, Drop)]
pub enum Value {
    /// A number, in units of 10 to the power -24.
    Number(i128),
    /// A text that is no number.
    Word(Text),
}

/// A parameter of a device. Names are compared without regard to ASCII case.
#[derive(Debug, Drop)]
pub struct Param {
    pub name: Text,
    pub value: Value,
}

/// A list of parameters.
pub type Params = ItemList<Param>;
