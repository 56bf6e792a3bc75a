//! Cards as values.

use cvc_base::{Pairs, Text, Texts};

/// What a logical line of a netlist says.
#[derive(Debug, Drop)]
pub enum Card {
    /// A device.
    Device(DeviceCard),
    /// An instance of a cell.
    Inst(InstCard),
    /// The begin of a cell, `.SUBCKT`.
    Subckt(CellCard),
    /// The end of a cell, `.ENDS`, with the name that follows it, if one does.
    Ends(Option<Text>),
    /// Names of global nets, `.GLOBAL` or `*.GLOBAL`.
    Global(Texts),
    /// Parameters, `.PARAM`.
    Params(Pairs),
    /// A card or a directive that says nothing to the check.
    Ignored,
}

/// The letter of a device.
#[derive(Clone, Copy, Debug, PartialEq, Eq)]
pub enum Letter {
    M,
    D,
    R,
    C,
    L,
    Q,
}

/// A device. `line` is the card's first physical line.
#[derive(Debug, Drop)]
pub struct DeviceCard {
    pub letter: Letter,
    pub name: Text,
    /// Four nets of an M (drain, gate, source, bulk), three of a Q (collector, base, emitter), two of every other device.
    pub nets: Texts,
    pub model: Text,
    /// The parameters. The value of an R, C or L stands first, under the letter's name.
    pub pairs: Pairs,
    pub line: u32,
}

/// How an instance is connected.
#[derive(Debug, Drop)]
pub enum Ports {
    /// A net for each port of the cell, in order.
    ByOrder(Texts),
    /// Pairs of a port and its net, no port twice.
    ByName(Pairs),
}

/// An instance of a cell. `line` is the card's first physical line.
#[derive(Debug, Drop)]
pub struct InstCard {
    pub name: Text,
    pub cell: Text,
    pub ports: Ports,
    pub pairs: Pairs,
    pub line: u32,
}

/// The begin of a cell, with its ports and the defaults of its parameters. `line` is the card's first physical line.
#[derive(Debug, Drop)]
pub struct CellCard {
    pub name: Text,
    pub ports: Texts,
    pub pairs: Pairs,
    pub line: u32,
}
