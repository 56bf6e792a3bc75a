//! The lists of pairs of a netlist's cells and of its instances' cards, each with an index.
ghost use Rattle.std.specs.Prelude.{◌≡◌, [], IfOk};
ghost use Rattle.cvc_cdl.specs.declared.netlist.Item.{Item};
ghost use Rattle.cvc_cdl.specs.Instances.{all_cells};
ghost use Rattle.cvc_params.specs.PairIndexes.{IsListed};
ghost use Rattle.cvc_params.specs.PairLists.{AreItemsListed, AreListed, IsCellListed, IsItemListed, ListsMore};
ghost use Rattle.cvc_params.specs.Sights.{IsSight};

use crate::params::Sight;
use cvc_base::{NoMemory, Pair};
use cvc_cdl::{Cell, Item, Netlist};
use std::alloc::Global;

/// The numbers of the lists of a cell's pairs, and of those of its items' cards, in order; of devices any number.
#[derive(Drop)]
pub struct CellLists {
    pub own: u32,
    pub items: Vec<u32>,
}

/// The numbers of the lists of all cells, those of the main level last.
#[derive(Drop)]
pub struct PairLists {
    pub cells: Vec<CellLists>,
}

// The number of a list; an empty one is that of this number.
fn list_of(
    alloc: Global,
    sight: &mut Sight<'_>,
    empty: u32,
    pairs: &[Pair],
) -> Result<u32, NoMemory>
    requires sight { IsSight sight.old }
    requires empty { IsListed sight.old.indexes empty [] }
    ensures more { IfOk result (λ list. ListsMore sight.old sight.new) }
    ensures listed { IfOk result (λ list. IsListed sight.new.indexes list pairs.now) }
{
    if pairs.is_empty() {
        return Ok(empty);
    }
    sight.add(alloc, pairs)
}

// The number of an item's list.
fn item_list(alloc: Global, sight: &mut Sight<'_>, empty: u32, item: &Item) -> Result<u32, NoMemory>
    requires sight { IsSight sight.old }
    requires empty { IsListed sight.old.indexes empty [] }
    ensures more { IfOk result (λ list. ListsMore sight.old sight.new) }
    ensures listed { IfOk result (IsItemListed sight.new.indexes item.now) }
{
    match item {
        Item::Device(_) => Ok(empty),
        Item::Inst(card) => list_of(alloc, sight, empty, card.pairs.as_slice()),
    }
}

// The numbers of items' lists.
fn item_lists(
    alloc: Global,
    sight: &mut Sight<'_>,
    empty: u32,
    items: &[Item],
) -> Result<Vec<u32>, NoMemory>
    requires sight { IsSight sight.old }
    requires empty { IsListed sight.old.indexes empty [] }
    ensures more { IfOk result (λ lists. ListsMore sight.old sight.new) }
    ensures listed { IfOk result (λ lists. AreItemsListed sight.new.indexes items.now lists.items) }
{
    let mut lists = Vec::new(alloc);
    for item in items {
        lists.push(item_list(alloc, sight, empty, item)?)?;
    }
    Ok(lists)
}

// The numbers of a cell's lists.
fn cell_lists(
    alloc: Global,
    sight: &mut Sight<'_>,
    empty: u32,
    cell: &Cell,
) -> Result<CellLists, NoMemory>
    requires sight { IsSight sight.old }
    requires empty { IsListed sight.old.indexes empty [] }
    ensures more { IfOk result (λ lists. ListsMore sight.old sight.new) }
    ensures listed { IfOk result (IsCellListed sight.new.indexes cell.now) }
{
    let items = item_lists(alloc, sight, empty, cell.items.as_slice())?;
    let own = list_of(alloc, sight, empty, cell.pairs.as_slice())?;
    Ok(CellLists { own, items })
}

/// The numbers of all lists, in time linear in the netlist.
pub fn lists_of(
    alloc: Global,
    netlist: &Netlist,
    sight: &mut Sight<'_>,
) -> Result<PairLists, NoMemory>
    requires sight { IsSight sight.old }
    ensures more { IfOk result (λ lists. ListsMore sight.old sight.new) }
    ensures listed { IfOk result (λ lists. AreListed sight.new.indexes (all_cells netlist.now) lists.cells.items) }
{
    let empty = sight.add(alloc, &[])?;
    let mut cells = Vec::new(alloc);
    for cell in netlist.cells.as_slice() {
        cells.push(cell_lists(alloc, sight, empty, cell)?)?;
    }
    cells.push(cell_lists(alloc, sight, empty, &netlist.main)?)?;
    Ok(PairLists { cells })
}
