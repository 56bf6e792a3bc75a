//! A plan that grows as a walk comes to items.
ghost use Rattle.std.specs.Prelude.{◌≡◌, ◌≤◌, [], IfOk, IsSome, OnOk, Some, length};
ghost use Rattle.cvc_cdl.specs.Instances.{cell_at};
ghost use Rattle.cvc_cdl.specs.WellFormed.{IsFormedItem, IsWellFormed};
ghost use Rattle.cvc_plan.specs.Planning.{HasPlan, IsItemPlan, IsPlan, PlanGrows, kept_of};

use crate::cards::{ItemPlan, Plan, cell_of, cell_plan, item_plan};
use crate::names::check_count;
use cvc_base::NoMemory;
use cvc_cdl::{Item, Netlist};
use std::alloc::Global;

/// Keeps an item of the top, and answers its plan.
pub fn plan_item(
    alloc: Global,
    netlist: &Netlist,
    plan: &mut Plan,
    item: &Item,
) -> Result<ItemPlan, NoMemory>
    requires well { IsWellFormed netlist.now }
    requires formed { IsFormedItem netlist.now.cells item.now }
    requires plan { IsPlan netlist.now plan.old }
    ensures plan { IfOk result (λ own. IsPlan netlist.now plan.new) }
    ensures grows { IfOk result (λ own. PlanGrows plan.old plan.new) }
    ensures own { IfOk result (IsItemPlan netlist.now plan.new.cards (cell_at netlist.now []).ports item.now) }
{
    let own = item_plan(
        alloc,
        netlist,
        &plan.places,
        &mut plan.cards,
        plan.globals,
        &plan.ports,
        item,
    )?;
    check_count(&plan.cards.names)?;
    Ok(own)
}

/// Keeps the items of a cell, unless they are kept.
pub fn plan_cell(
    alloc: Global,
    netlist: &Netlist,
    plan: &mut Plan,
    number: usize,
) -> Result<(), NoMemory>
    requires well { IsWellFormed netlist.now }
    requires known { number ≤ length netlist.now.cells }
    requires plan { IsPlan netlist.now plan.old }
    ensures plan { OnOk result (IsPlan netlist.now plan.new) }
    ensures grows { OnOk result (PlanGrows plan.old plan.new) }
    ensures kept { OnOk result (HasPlan plan.new number) }
{
    if plan.cells[number].is_some() {
        return Ok(());
    }
    let cell = cell_of(netlist, number);
    let kept = cell_plan(
        alloc,
        netlist,
        &plan.places,
        &mut plan.cards,
        plan.globals,
        cell,
    )?;
    check_count(&plan.cards.names)?;
    plan.cells[number] = Some(kept);
    Ok(())
}

/// What is kept of the item at this place of a cell: its own plan, or the one in the plan of the cell.
pub fn planned_item<'p>(
    plan: &'p Plan,
    own: &'p Option<ItemPlan>,
    cell: usize,
    place: usize,
) -> &'p ItemPlan
    requires { IsSome (kept_of plan.now.cells.items own.now cell place) }
    ensures { kept_of plan.now.cells.items own.now cell place ≡ Some result.now }
{
    match own {
        Some(item) => item,
        None => match &plan.cells[cell] {
            Some(kept) => &kept.items[place],
            None => unreachable!(),
        },
    }
}
