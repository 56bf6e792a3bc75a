//! The faults of a netlist as a whole.
ghost use Rattle.std.specs.Prelude.{◌≡◌, ◌++◌, map, take, drop, All, IfOk, OnOk};
ghost use Rattle.std.specs.List.{filter_map};
ghost use Rattle.cvc_cdl.specs.Netlist.{name_of_cell};
ghost use Rattle.cvc_cdl.specs.Builder.{named_top};
ghost use Rattle.cvc_cdl.specs.Ending.{first_instance_fault, top_fault};
ghost use Rattle.cvc_cdl.specs.Chains.{TellsEndless, all_numbers};
ghost use Rattle.cvc_cdl.specs.Finishing.{all_uses_in, cells_fault_in, endless_fault_in, file_instances, instances_in, names_endless, place_at};
ghost use Rattle.cvc_cdl.specs.Placed.{IsPlaced, insts_placed, place_placed};

use crate::endless::endless_cells;
use crate::fault::fault_at;
use crate::library::{Library, Placed};
use crate::netlist::{Cell, Item};
use cvc_base::{Cause, Fault, NoMemory, Refusal};
use cvc_names::Names;
use std::alloc::Global;

/// The instances of all levels in file order, and for each cell the places of the cells that its own name.
#[derive(Drop)]
struct FileInstances<'a> {
    placed: Vec<Placed<'a>>,
    uses: Vec<Vec<usize>>,
}

// Puts the instances among these items last.
fn add_instances<'a>(
    library: &Library<'_>,
    found: &mut Vec<Placed<'a>>,
    items: &'a [Item],
) -> Result<(), NoMemory>
    requires { All (IsPlaced library.now.cells.now) found.old.items }
    ensures insts { OnOk result (insts_placed found.new.items ≡ insts_placed found.old.items ++ instances_in items.now) }
    ensures placed { OnOk result (All (IsPlaced library.now.cells.now) found.new.items) }
{
    for item in items {
        if let Some(inst) = item.inst() {
            found.push(library.placed(inst))?;
        }
    }
    Ok(())
}

// The places of these instances, where they have one.
fn places_of(alloc: Global, placed: &[Placed<'_>]) -> Result<Vec<usize>, NoMemory>
    ensures { IfOk result (λ places. places.items ≡ filter_map place_placed placed.now) }
{
    let mut places = Vec::new(alloc);
    for inst in placed {
        if let Some(place) = inst.place {
            places.push(place)?;
        }
    }
    Ok(places)
}

// The first n items, or all, and those behind them.
fn cut(items: &[Item], n: usize) -> (&[Item], &[Item])
    ensures front { result.0.now ≡ take n items.now }
    ensures back { result.1.now ≡ drop n items.now }
{
    if n < items.len() {
        items.split_at(n)
    } else {
        (items, &[])
    }
}

// The i-th place, or another where there is none.
fn place_at(places: &[usize], i: usize, other: usize) -> usize
    ensures { result ≡ place_at other (drop i places.now) }
{
    if i < places.len() { places[i] } else { other }
}

// The instances of all levels. Before the cell at each place stand so many items on the main level.
fn instances<'a>(
    alloc: Global,
    library: &Library<'a>,
    places: &[usize],
    items: &'a [Item],
) -> Result<FileInstances<'a>, NoMemory>
    ensures insts { IfOk result (λ found. insts_placed found.placed.items ≡ file_instances items.now library.now.cells.now places.now) }
    ensures placed { IfOk result (λ found. All (IsPlaced library.now.cells.now) found.placed.items) }
    ensures uses { IfOk result (λ found. all_numbers found.uses.items ≡ all_uses_in library.now.cells.now) }
{
    let mut placed = Vec::new(alloc);
    let mut uses = Vec::new(alloc);
    let mut from = 0;
    let mut rest = items;
    let cells = library.cells;
    for (i, cell) in cells.iter().enumerate() {
        let place = place_at(places, i, from);
        let (before, after) = cut(rest, place.saturating_sub(from));
        add_instances(library, &mut placed, before)?;
        let mut own = Vec::new(alloc);
        add_instances(library, &mut own, cell.items.as_slice())?;
        uses.push(places_of(alloc, &own)?)?;
        placed.append(&mut own)?;
        from = place;
        rest = after;
    }
    add_instances(library, &mut placed, rest)?;
    Ok(FileInstances { placed, uses })
}

// The first instance that doesn't fit its cell.
fn first_misfit(library: &Library<'_>, instances: &[Placed<'_>]) -> Option<Fault>
    requires { All (IsPlaced library.now.cells.now) instances.now }
    ensures { result ≡ first_instance_fault library.now.cells.now (insts_placed instances.now) }
{
    for placed in instances {
        if let Some(cause) = library.cause(placed) {
            return Some(fault_at(placed.inst.line, cause));
        }
    }
    None
}

// Whether the instance names an endless cell.
fn is_endless(library: &Library<'_>, endless: &[bool], placed: &Placed<'_>) -> bool
    requires told { TellsEndless (all_uses_in library.now.cells.now) endless.now }
    requires placed { IsPlaced library.now.cells.now placed.now }
    ensures { result ≡ names_endless library.now.cells.now placed.now.inst.now }
{
    match placed.place {
        Some(place) => endless.get(place).copied().unwrap_or(false),
        None => false,
    }
}

// The first instance that names an endless cell, by whether each cell is endless.
fn first_recursive(
    library: &Library<'_>,
    endless: &[bool],
    instances: &[Placed<'_>],
) -> Option<Fault>
    requires told { TellsEndless (all_uses_in library.now.cells.now) endless.now }
    requires placed { All (IsPlaced library.now.cells.now) instances.now }
    ensures { result ≡ endless_fault_in library.now.cells.now (insts_placed instances.now) }
{
    for placed in instances {
        if is_endless(library, endless, placed) {
            return Some(fault_at(placed.inst.line, Cause::Recursive));
        }
    }
    None
}

// The first instance that names an endless cell.
fn first_endless(
    alloc: Global,
    library: &Library<'_>,
    instances: &FileInstances<'_>,
) -> Result<Option<Fault>, NoMemory>
    requires placed { All (IsPlaced library.now.cells.now) instances.now.placed.items }
    requires uses { all_numbers instances.now.uses.items ≡ all_uses_in library.now.cells.now }
    ensures { IfOk result (λ fault. fault ≡ endless_fault_in library.now.cells.now (insts_placed instances.now.placed.items)) }
{
    let endless = endless_cells(alloc, &instances.uses)?;
    Ok(first_recursive(library, &endless, &instances.placed))
}

// A top that is no cell.
fn top_fault(library: &Library<'_>, top: Option<&[u8]>) -> Option<Fault>
    ensures { result ≡ top_fault library.now.cells.now (named_top top.entry) }
{
    let name = top?;
    match library.place(name) {
        Some(_) => None,
        None => Some(fault_at(0, Cause::NoTop)),
    }
}

/// The first fault of a netlist without an open cell, whose cells have these names, in time linear in its cells, items and ports.
pub(crate) fn check(
    alloc: Global,
    cells: &[Cell],
    names: &Names,
    places: &[usize],
    items: &[Item],
    top: Option<&[u8]>,
) -> Result<Option<Fault>, NoMemory>
    requires { names.now ≡ map name_of_cell cells.now }
    ensures { IfOk result (λ fault. fault ≡ cells_fault_in cells.now (file_instances items.now cells.now places.now) (named_top top.entry)) }
{
    let library = Library::of(alloc, cells, names)?;
    let instances = instances(alloc, &library, places, items)?;
    let misfit = first_misfit(&library, &instances.placed);
    if misfit.is_some() {
        return Ok(misfit);
    }
    let endless = first_endless(alloc, &library, &instances)?;
    if endless.is_some() {
        return Ok(endless);
    }
    Ok(top_fault(&library, top))
}
