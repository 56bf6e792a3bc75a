//! The groups of devices that have one model and the same parameters.
ghost use Rattle.std.specs.Prelude.{◌≡◌, ◌≤◌, IfOk, IfSome, is_none, length};
ghost use Rattle.std.specs.List.{AllZip};
ghost use Rattle.cvc_params.specs.Levels.{instance_of};
ghost use Rattle.cvc_params.specs.Places.{has_loop};
ghost use Rattle.cvc_params.specs.Sights.{IsSight, SeesTheSame};
ghost use Rattle.cvc_cdl.specs.Instances.{all_cells};
ghost use Rattle.cvc_flat.specs.Sharing.{HasNoGroups, IsGroupOf, TakesGroup};

use crate::group_table::GroupTable;
use cvc_base::{NoMemory, Pairs};
use cvc_cdl::{Cell, Netlist};
use cvc_params::{Sight, plain_params};
use std::alloc::Global;

// For each item of a cell the group that all devices of its card share, once there is one.
#[derive(Drop)]
pub(crate) struct CellGroups {
    pub items: Vec<Option<u32>>,
}

// No card of a cell has a group.
fn no_groups_in(alloc: Global, cell: &Cell) -> Result<CellGroups, NoMemory>
    ensures { IfOk result (HasNoGroups cell.now) }
{
    let items = vec![in alloc; None; cell.items.len()]?;
    Ok(CellGroups { items })
}

// No card has a group, in any of all cells, the main level last.
pub(crate) fn no_groups(alloc: Global, netlist: &Netlist) -> Result<Vec<CellGroups>, NoMemory>
    ensures { IfOk result (λ cells. AllZip HasNoGroups (all_cells netlist.now) cells.items) }
{
    let mut cells = Vec::new(alloc);
    for cell in netlist.cells.as_slice() {
        cells.push(no_groups_in(alloc, cell)?)?;
    }
    cells.push(no_groups_in(alloc, &netlist.main)?)?;
    Ok(cells)
}

// The group of a device with these pairs, or `None` where one of its parameters is a loop. For a card whose values are all numbers it is looked up
// once, for the first device.
#[tactic(auto, using(crate::proofs::Sharing::takes_numbered, crate::proofs::Sharing::numbered_shared))]
pub(crate) fn group_of<'n>(
    alloc: Global,
    sight: &mut Sight<'n>,
    pairs: &'n Pairs,
    model: u32,
    shared: &mut Option<u32>,
    groups: &mut GroupTable,
) -> Result<Option<u32>, NoMemory>
    requires sight { IsSight sight.old }
    requires shared { IfSome shared.old (IsGroupOf groups.old pairs.now model) }
    requires few { length groups.old ≤ 500000 }
    ensures sight { IfOk result (λ group. IsSight sight.new) }
    ensures same { IfOk result (λ group. SeesTheSame sight.old sight.new) }
    ensures looped { IfOk result (λ group. is_none group ≡ has_loop sight.old.netlist.now (instance_of sight.old.levels.items) pairs.now) }
    ensures group { IfOk result (λ group. IfSome group
        (TakesGroup sight.old.netlist.now (instance_of sight.old.levels.items) pairs.now model groups.old groups.new)) }
    ensures shared { IfOk result (λ group. IfSome group (λ g. IfSome shared.new (IsGroupOf groups.new pairs.now model))) }
{
    if let Some(group) = *shared {
        return Ok(Some(group));
    }
    if let Some(params) = plain_params(alloc, pairs)? {
        let group = groups.number(model, params)?;
        *shared = Some(group);
        return Ok(Some(group));
    }
    let found = sight.params_of(alloc, pairs)?;
    let Some(params) = found else {
        return Ok(None);
    };
    Ok(Some(groups.number(model, params)?))
}
