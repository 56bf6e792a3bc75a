//! From a netlist to its flat list.
ghost use Rattle.std.specs.Prelude.{◌≡◌, ◌<◌, ◌≤◌, Ok, Err, IfOk, [], All, length, slice_index_or};
ghost use Rattle.cvc_base.specs.Answers.{IfAt, Refuses};
ghost use Rattle.cvc_cdl.specs.WellFormed.{IsWellFormed};
ghost use Rattle.cvc_cdl.specs.Instances.{all_cells, cell_at, no_cell};
ghost use Rattle.cvc_params.specs.PairLists.{AreListed};
ghost use Rattle.cvc_params.specs.Sights.{IsSight};
ghost use Rattle.cvc_plan.specs.Planning.{IsKept, IsPlan, PlanGrows};
ghost use Rattle.cvc_flat.specs.Flat.{flat_of, limits, nets_behind, visits_of, walk_fault};
ghost use Rattle.cvc_flat.specs.Making.{Shows, known_nets, tables_of};
ghost use Rattle.cvc_flat.specs.Tables.{IsSound, held_of};

use crate::Flat;
use crate::finder::Finder;
use crate::group_table::GroupTable;
use crate::nets::NetTable;
use crate::rows::InstanceRow;
use crate::shared::no_groups;
use crate::steps::{Made, Source, enter, opened, place};
use cvc_base::{NoMemory, Refusal, Text};
use cvc_cdl::{Cell, Item, Netlist};
use cvc_params::{Level, Lists, Sight, lists_of};
use cvc_plan::{
    ItemPlan, Plan, cell_of, join, open_plan, plan_cell, plan_item, planned_item, ports_from,
    top_ports,
};
use std::alloc::Global;

// Where the walk stands in an instance: the next item of its cell, whose plan has this number and whose ports begin at `first`.
#[derive(Clone, Copy)]
pub(crate) struct Mark<'n> {
    pub instance: u32,
    pub cell: &'n Cell,
    pub plan: usize,
    pub first: usize,
    pub next: usize,
}

// What a walk makes, with the plan of the cards that it came to.
#[derive(Drop)]
struct Walked {
    plan: Plan,
    instances: Vec<InstanceRow>,
    made: Made,
}

// Plans the item that comes next. One of the top is planned for this visit alone, since the top is walked once; the items of another cell all at
// once, where the walk first comes to one of them.
fn plan_next<'n>(
    alloc: Global,
    source: &Source<'n>,
    plan: &mut Plan,
    mark: &Mark<'n>,
    item: &'n Item,
) -> Result<Option<ItemPlan>, NoMemory>
    requires well { IsWellFormed source.now.netlist.now }
    requires plan { IsPlan source.now.netlist.now plan.old }
    requires known { mark.now.plan ≤ length source.now.netlist.now.cells }
    requires cell { slice_index_or (all_cells source.now.netlist.now) mark.now.plan no_cell ≡ mark.now.cell.now }
    requires top { mark.now.instance ≡ 0 → mark.now.cell.now ≡ cell_at source.now.netlist.now [] }
    requires inside { mark.now.next < length mark.now.cell.now.items }
    requires item { item.now ≡ slice_index_or mark.now.cell.now.items mark.now.next item.now }
    ensures plan { IfOk result (λ own. IsPlan source.now.netlist.now plan.new) }
    ensures grows { IfOk result (λ own. PlanGrows plan.old plan.new) }
    ensures kept { IfOk result (λ own. IsKept source.now.netlist.now plan.new mark.now.cell.now.ports item.now own mark.now.plan mark.now.next) }
{
    if mark.instance == 0 {
        return Ok(Some(plan_item(alloc, source.netlist, plan, item)?));
    }
    plan_cell(alloc, source.netlist, plan, mark.plan)?;
    Ok(None)
}

// Walks the whole of a netlist, where the nets of its openings are known.
fn walk<'n>(
    alloc: Global,
    source: &Source<'n>,
    opened: Plan,
    start: Sight<'n>,
    nets: NetTable,
) -> Result<Walked, Refusal>
    requires formed { IsWellFormed source.now.netlist.now }
    requires plan { IsPlan source.now.netlist.now opened }
    requires top { source.now.top.now ≡ cell_at source.now.netlist.now [] }
    requires sight { IsSight start }
    requires same { start.netlist.now ≡ source.now.netlist.now }
    requires outside { start.levels.items ≡ [] }
    requires lists { AreListed start.indexes (all_cells source.now.netlist.now) source.now.lists.now.cells.items }
    requires nets { known_nets opened.cards [] nets ≡ nets_behind source.now.netlist.now [] }
    requires within { All (λ r. (r.instance ≤ 0) × (r.name < length opened.cards.names)) nets }
    requires room { length nets ≤ 1000000 }
    ensures refused { Refuses (walk_fault limits source.now.netlist.now [] (visits_of limits source.now.netlist.now)) result }
    ensures plan { IfOk result (λ w. IsPlan source.now.netlist.now w.plan) }
    ensures sound { IfOk result (λ w. IsSound (tables_of source.now.netlist.now w.plan w.instances.items w.made)) }
    ensures shows { IfOk result (λ w. Shows source.now.netlist.now (tables_of source.now.netlist.now w.plan w.instances.items w.made)
        (visits_of limits source.now.netlist.now)) }
{
    let mut plan = opened;
    let mut instances = Vec::new(alloc);
    let mut made = Made {
        nets,
        devices: Vec::new(alloc),
        groups: GroupTable::new(alloc),
    };
    let openings = plan.openings.as_slice();
    let mut ports = top_ports(alloc, openings, plan.globals)?;
    let mut sight = start;
    let mut shared = no_groups(alloc, source.netlist)?;
    let mut above: Vec<Mark<'_>> = Vec::new(alloc);
    let mut mark = Mark {
        instance: 0,
        cell: source.top,
        plan: plan.top as usize,
        first: 0,
        next: 0,
    };
    'visits: loop {
        if mark.next >= mark.cell.items.len() {
            let Some(up) = above.pop() else {
                return Ok(Walked {
                    plan,
                    instances,
                    made,
                });
            };
            sight.leave();
            ports.truncate(mark.first);
            mark = up;
            continue 'visits;
        }
        let item = mark.cell.items.get(mark.next);
        let fresh = plan_next(alloc, source, &mut plan, &mark, item)?;
        let planned = planned_item(&plan, &fresh, mark.plan, mark.next);
        let lists = &source.lists.cells[mark.plan];
        mark.next += 1;
        match (item, planned) {
            (Item::Device(card), ItemPlan::Device(number, device)) => {
                let own = ports_from(&ports, mark.first);
                let groups = &mut shared[mark.plan];
                place(
                    alloc,
                    source,
                    &plan,
                    &mut sight,
                    mark.instance,
                    own,
                    card,
                    *number,
                    device,
                    &mut groups.items[mark.next - 1],
                    &mut made,
                )?;
                continue 'visits;
            }
            (Item::Inst(card), ItemPlan::Inst(number, used)) => {
                let row = InstanceRow {
                    parent: mark.instance,
                    card: *number,
                };
                let instance = enter(&mut instances, sight.depth(), row, card.line)?;
                let cell = cell_of(source.netlist, used.cell as usize);
                let given = &source.lists.cells[used.cell as usize];
                let numbers = Lists {
                    card: lists.items[mark.next - 1],
                    cell: given.own,
                };
                let first = ports.len();
                let plans = used.ports.as_slice();
                join(&mut ports, mark.first, mark.instance, instance, plans)?;
                above.push(mark)?;
                sight.enter(Level { card, cell }, numbers)?;
                mark = Mark {
                    instance,
                    cell,
                    plan: used.cell as usize,
                    first,
                    next: 0,
                };
                continue 'visits;
            }
            _ => unreachable!(),
        }
    }
}

// A copy of the top's name.
fn top_name(alloc: Global, top: &Option<Text>) -> Result<Option<Text>, NoMemory>
    ensures { IfOk result (λ name. name ≡ top.now) }
{
    match top {
        Some(name) => Ok(Some(Text::of(alloc, name.bytes())?)),
        None => Ok(None),
    }
}

// The flat list of what a walk has made.
fn list_of(alloc: Global, netlist: &Netlist, walked: Walked) -> Result<Flat, NoMemory>
    requires sound { IsSound (tables_of netlist.now walked.plan walked.instances.items walked.made) }
    ensures { IfOk result (λ flat. flat ≡ held_of (tables_of netlist.now walked.plan walked.instances.items walked.made)) }
{
    let top = top_name(alloc, &netlist.top)?;
    let Walked {
        plan,
        instances,
        made,
    } = walked;
    let globals = plan.globals;
    let cards = plan.cards;
    let Made {
        nets,
        devices,
        groups,
    } = made;
    let nets = nets.into_rows();
    let finder = Finder::of(alloc, &cards.names, &cards.parts, &instances, &nets)?;
    Ok(Flat {
        top,
        names: cards.names,
        globals,
        parts: cards.parts,
        cards: cards.devices,
        groups: groups.into_vec(),
        instances,
        devices,
        nets,
        finder,
    })
}

/// The flat list of a netlist, or its first fault in the walk: an instance too many (`TooManyInstances`) or of more than 64 names (`TooDeep`), a
/// device too many (`TooManyDevices`), a net too many (`TooManyNets`), or a parameter of a device that leads back to itself (`ParamLoop`). The
/// fault's line is the first of the card.
pub fn flatten(alloc: Global, netlist: &Netlist) -> Result<Flat, Refusal>
    requires { IsWellFormed netlist.now }
    ensures flat { IfOk result (λ flat. flat_of limits netlist.now ≡ Ok flat.list) }
    ensures fault { IfAt result (λ fault. flat_of limits netlist.now ≡ Err fault) }
{
    let plan = open_plan(alloc, netlist)?;
    let nets = opened(alloc, &plan)?;
    let top = cell_of(netlist, plan.top as usize);
    let mut sight = Sight::new(alloc, netlist, top)?;
    let lists = lists_of(alloc, netlist, &mut sight)?;
    let source = Source {
        netlist,
        top,
        lists: &lists,
    };
    let walked = walk(alloc, &source, plan, sight, nets)?;
    Ok(list_of(alloc, netlist, walked)?)
}
