//! Netlists as values.

use cvc_base::{ItemList, Pairs, Text, Texts};
use cvc_card::{DeviceCard, InstCard};

/// A global net, with the line of the card that names it first.
#[derive(Debug, Drop)]
pub struct Global {
    pub name: Text,
    pub line: u32,
}

/// A list of global nets.
pub type Globals = ItemList<Global>;

/// What stands in a cell, or on the main level.
#[derive(Debug, Drop)]
pub enum Item {
    Device(DeviceCard),
    Inst(InstCard),
}

impl Item {
    ghost use Rattle.std.specs.Prelude.{◌≡◌};
    ghost use Rattle.std.specs.Option.{option_map};
    ghost use Rattle.cvc_cdl.specs.Building.{name_of_item};
    ghost use Rattle.cvc_cdl.specs.Ending.{inst_held, inst_in};

    /// The instance, if it is one.
    pub fn inst(&self) -> Option<&InstCard>
        ensures { option_map inst_held result ≡ inst_in self.now }
    {
        match self {
            Item::Device(_) => None,
            Item::Inst(inst) => Some(inst),
        }
    }

    /// The name of the device or the instance.
    pub fn name(&self) -> &[u8]
        ensures { result.now ≡ name_of_item self.now }
    {
        match self {
            Item::Device(device) => device.name.bytes(),
            Item::Inst(inst) => inst.name.bytes(),
        }
    }
}

/// A list of items, in file order.
pub type Items = ItemList<Item>;

/// A cell. Its pairs are the defaults of its `.SUBCKT` card, followed by those of the `.PARAM` cards inside. `line` is the first line
/// of its `.SUBCKT` card.
#[derive(Debug, Drop)]
pub struct Cell {
    pub name: Text,
    pub ports: Texts,
    pub pairs: Pairs,
    pub items: Items,
    pub line: u32,
}

/// A list of cells, in file order.
pub type Cells = ItemList<Cell>;

/// A netlist that has no fault: its global nets, the parameters, the cells, what stands outside of them, and the cell that is its top.
#[derive(Debug, Drop)]
pub struct Netlist {
    /// The global nets in the order of first mention, each once.
    pub globals: Globals,
    /// The pairs of the `.PARAM` cards outside of cells.
    pub params: Pairs,
    pub cells: Cells,
    /// The main level: an empty name, no ports, no pairs, and line 0.
    pub main: Cell,
    /// The name of the top; `None` is the main level.
    pub top: Option<Text>,
}
