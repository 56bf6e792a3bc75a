//! The netlist that the cards so far say.
ghost use Rattle.std.specs.Prelude.{◌≡◌, [], ◌∷◌, ◌++◌, Some, None, is_some, IfOk};
ghost use Rattle.cvc_cdl.specs.Netlist.{globals_in, top_of};
ghost use Rattle.cvc_cdl.specs.Building.{ends_cause};
ghost use Rattle.cvc_cdl.specs.Drafting.{AreNamed, Becomes, begun_cause, cause_in, cell_held, draft_held, item_cause, names_here, with_card, with_cell};
ghost use Rattle.cvc_cdl.specs.Drafting.{with_globals, with_item, with_pairs, without_level};
ghost use Rattle.cvc_cdl.specs.Builder.{named_top};
ghost use Rattle.cvc_cdl.specs.Finishing.{Finishes, draft_netlist};

use crate::ending::check;
use crate::fault::fault_at;
use crate::level::Level;
use crate::netlist::{Cell, Cells, Global, Globals, Item, Netlist};
use cvc_base::{Cause, NoMemory, Pairs, Refusal, Stop, Text, Texts};
use cvc_card::{Card, CellCard};
use cvc_names::{Names, has_twice};
use std::alloc::Global as Heap;

/// A cell that has no end yet.
#[derive(Drop)]
pub(crate) struct OpenCell {
    pub card: CellCard,
    pub level: Level,
}

/// What the cards so far say.
#[derive(Drop)]
pub(crate) struct Draft {
    pub alloc: Heap,
    pub globals: Globals,
    pub global_names: Names,
    pub params: Pairs,
    /// The cells that have ended.
    pub ended: Cells,
    pub current: Option<OpenCell>,
    /// The names of all cells.
    pub cell_names: Names,
    pub main: Level,
    /// For each cell, how many items stand on the main level before it.
    pub places: Vec<usize>,
}

impl OpenCell {
    fn into_cell(self) -> Cell
        ensures { result ≡ cell_held self }
    {
        let OpenCell { card, level } = self;
        let CellCard {
            name,
            ports,
            pairs,
            line,
        } = card;
        Cell {
            name,
            ports,
            pairs,
            items: level.into_items(),
            line,
        }
    }
}

// Puts these pairs last.
fn append(list: &mut Pairs, pairs: Pairs) -> Result<(), Stop>
    ensures { Becomes None (list.old ++ pairs) list.new result }
{
    for pair in pairs.into_vec() {
        list.push(pair)?;
    }
    Ok(())
}

// Whether a cell's end names another cell.
fn is_other(name: &Option<Text>, cell: &Text) -> bool
    ensures { result ≡ is_some (ends_cause (Some cell.now) name.now) }
{
    match name {
        Some(name) => name.bytes() != cell.bytes(),
        None => false,
    }
}

// The name of the top that was asked for, or of the top by default.
fn top_name(
    alloc: Heap,
    top: Option<&[u8]>,
    items: &[Item],
    cells: &[Cell],
) -> Result<Option<Text>, NoMemory>
    ensures { IfOk result (λ name. name ≡ top_of (named_top top.entry) items.now cells.now) }
{
    if let Some(name) = top {
        return Ok(Some(Text::of(alloc, name)?));
    }
    match cells {
        [.., last] if items.is_empty() => Ok(Some(Text::of(alloc, last.name.bytes())?)),
        _ => Ok(None),
    }
}

impl Draft {
    /// What no cards say.
    pub(crate) fn new(alloc: Heap) -> Draft
        ensures { draft_held result ≡ record {
          level = None;
          globals = [];
          global_names = [];
          params = [];
          cells = [];
          cell_names = [];
          items = [];
          names = [];
          inner_names = [];
          places = [];
        } }
    {
        Draft {
            alloc,
            globals: Globals::new(alloc),
            global_names: Names::new(alloc),
            params: Pairs::new(alloc),
            ended: Cells::new(alloc),
            current: None,
            cell_names: Names::new(alloc),
            main: Level::new(alloc),
            places: Vec::new(alloc),
        }
    }

    // A device or an instance stands on the level that is open.
    fn add_item(&mut self, item: Item) -> Result<(), Stop>
        ensures { let d = draft_held self.old in Becomes (item_cause (names_here d.level d) item) (with_item d.level d item) (draft_held self.new) result }
    {
        match &mut self.current {
            Some(cell) => cell.level.add(item),
            None => self.main.add(item),
        }
    }

    // The pairs of a `.PARAM` card.
    fn add_pairs(&mut self, pairs: Pairs) -> Result<(), Stop>
        ensures { let d = draft_held self.old in Becomes None (with_pairs d.level d pairs) (draft_held self.new) result }
    {
        match &mut self.current {
            Some(cell) => append(&mut cell.card.pairs, pairs),
            None => append(&mut self.params, pairs),
        }
    }

    // A cell begins.
    fn begin_cell(&mut self, card: CellCard) -> Result<(), Stop>
        ensures { Becomes (begun_cause (draft_held self.old) card) (with_cell (draft_held self.old) card) (draft_held self.new) result }
    {
        if self.current.is_some() {
            return Err(Stop::At(Cause::NestedSubckt));
        }
        if !self.cell_names.insert(card.name.bytes())? {
            return Err(Stop::At(Cause::TwiceCell));
        }
        if has_twice(self.alloc, card.ports.as_slice())? {
            return Err(Stop::At(Cause::TwicePort));
        }
        self.places.push(self.main.len())?;
        self.current = Some(OpenCell {
            card,
            level: Level::new(self.alloc),
        });
        Ok(())
    }

    // The open cell ends.
    fn end_cell(&mut self, name: Option<Text>) -> Result<(), Stop>
        ensures { Becomes (ends_cause (draft_held self.old).level name) (without_level (draft_held self.old)) (draft_held self.new) result }
    {
        let Some(open) = self.current.take() else {
            return Err(Stop::At(Cause::StrayEnds));
        };
        if is_other(&name, &open.card.name) {
            return Err(Stop::At(Cause::EndsName));
        }
        self.ended.push(open.into_cell())?;
        Ok(())
    }

    // A global net, unless it is known.
    fn add_global(&mut self, name: Text, line: u32) -> Result<(), Stop>
        ensures { Becomes None (with_globals (draft_held self.old) (record { name = name; line = line } ∷ [])) (draft_held self.new) result }
    {
        if self.global_names.insert(name.bytes())? {
            self.globals.push(Global { name, line })?;
        }
        Ok(())
    }

    // The names of a card that names global nets.
    fn add_globals(&mut self, names: Texts, line: u32) -> Result<(), Stop>
        ensures { Becomes None (with_globals (draft_held self.old) (globals_in line (Card.Global names))) (draft_held self.new) result }
    {
        for name in names.into_vec() {
            self.add_global(name, line)?;
        }
        Ok(())
    }

    /// Takes a card that lies on the level that is open. `line` is its first line.
    pub(crate) fn add(&mut self, card: Card, line: u32) -> Result<(), Stop>
        ensures { Becomes (cause_in (draft_held self.old) card) (with_card (draft_held self.old) line card) (draft_held self.new) result }
    {
        match card {
            Card::Device(device) => self.add_item(Item::Device(device)),
            Card::Inst(inst) => self.add_item(Item::Inst(inst)),
            Card::Subckt(cell) => self.begin_cell(cell),
            Card::Ends(name) => self.end_cell(name),
            Card::Global(names) => self.add_globals(names, line),
            Card::Params(pairs) => self.add_pairs(pairs),
            Card::Ignored => Ok(()),
        }
    }

    // The netlist of a draft that has no open cell.
    fn into_netlist(self, top: Option<&[u8]>) -> Result<Netlist, NoMemory>
        requires { self.current ≡ None }
        ensures { IfOk result (λ netlist. netlist ≡ draft_netlist (draft_held self) (named_top top.entry)) }
    {
        let alloc = self.alloc;
        let top = top_name(alloc, top, self.main.as_slice(), self.ended.as_slice())?;
        let name = Text::of(alloc, b"")?;
        let Draft {
            alloc: _,
            globals,
            global_names: _,
            params,
            ended: cells,
            current: _,
            cell_names: _,
            main,
            places: _,
        } = self;
        Ok(Netlist {
            globals,
            params,
            cells,
            main: Cell {
                name,
                ports: Texts::new(alloc),
                pairs: Pairs::new(alloc),
                items: main.into_items(),
                line: 0,
            },
            top,
        })
    }

    /// The netlist, or its first fault as a whole.
    pub(crate) fn finish(self, top: Option<&[u8]>) -> Result<Netlist, Refusal>
        requires { AreNamed (draft_held self) }
        ensures { Finishes (draft_held self) (named_top top.entry) result }
    {
        if let Some(open) = &self.current {
            let fault = fault_at(open.card.line, Cause::OpenSubckt);
            return Err(Refusal::At(fault));
        }
        let cells = self.ended.as_slice();
        let items = self.main.as_slice();
        match check(
            self.alloc,
            cells,
            &self.cell_names,
            &self.places,
            items,
            top,
        ) {
            Ok(None) => {}
            Ok(Some(fault)) => return Err(Refusal::At(fault)),
            Err(NoMemory) => return Err(Refusal::NoMemory),
        }
        match self.into_netlist(top) {
            Ok(netlist) => Ok(netlist),
            Err(NoMemory) => Err(Refusal::NoMemory),
        }
    }
}
