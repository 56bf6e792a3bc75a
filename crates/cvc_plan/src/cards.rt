//! The plan of a walk: what is kept of the cards of a netlist, of each once, as the walk comes to them.
ghost use Rattle.std.specs.Prelude.{◌≡◌, ◌<◌, ◌≤◌, [], false, All, IfOk, IfSome, MatchOption, None, length, map, slice_index_or, take};
ghost use Rattle.cvc_card.specs.Card.{has_twice, net_count};
ghost use Rattle.cvc_card.specs.Formed.{ConnectsOnce};
ghost use Rattle.cvc_cdl.specs.declared.netlist.Item.TheVariants as items;
ghost use Rattle.cvc_cdl.specs.declared.netlist.Netlist.{Netlist};
ghost use Rattle.cvc_cdl.specs.Ending.{cell_named, ports_cause};
ghost use Rattle.cvc_cdl.specs.Netlist.{name_of_cell, name_of_global};
ghost use Rattle.cvc_cdl.specs.WellFormed.{IsFormedItem, IsFormedLevel, IsWellFormed};
ghost use Rattle.cvc_cdl.specs.Instances.{all_cells, cell_at, cell_for, no_cell};
ghost use Rattle.cvc_plan.specs.Names.{Grows};
ghost use Rattle.cvc_plan.specs.Nets.{global_names as names_of_globals};
ghost use Rattle.cvc_plan.specs.Planning.{AreSoundCards, CardsGrow, HasNoPlan, IsCellPlan, IsItemPlan, IsPlan, opening_of, openings_at};
ghost use Rattle.std.specs.List.{AllZip};

use crate::names::{check_count, narrow, number};
use crate::pins::{PortPlan, device_pins, port_names, port_plans};
use crate::plan::{DevicePlan, part_of};
use crate::rows::{DevicePart, InstancePart};
use cvc_base::NoMemory;
use cvc_card::{DeviceCard, InstCard};
use cvc_cdl::{Cell, Global as GlobalNet, Item, Netlist};
use cvc_names::Names;
use std::alloc::Global;

/// What is kept of cards: their names, each once, and the parts of instances and devices.
#[derive(Drop)]
pub struct Cards {
    pub names: Names,
    pub parts: Vec<InstancePart>,
    pub devices: Vec<DevicePart>,
}

/// What is kept of an instance's card: the number of its cell, and the plans of the cell's ports in order.
#[derive(Drop)]
pub struct InstPlan {
    pub cell: u32,
    pub ports: Vec<PortPlan>,
}

/// What is kept of an item: the number of its card, and of a device its pins, of an instance its cell.
#[derive(Drop)]
pub enum ItemPlan {
    Device(u32, DevicePlan),
    Inst(u32, InstPlan),
}

/// What is kept of a cell's items, in order.
#[derive(Drop)]
pub struct CellPlan {
    pub items: Vec<ItemPlan>,
}

/// A global, or a port of the top, by the number of its name, with the line of the card that names it.
#[derive(Clone, Copy)]
pub struct OpeningPlan {
    pub name: u32,
    pub line: u32,
}

/// What is kept of a netlist so far: its cards, and for each cell what is kept of its items, once they are. The main level is the cell behind all
/// others; `top` is the number of the top among them. Cells, and the ports of the top, are found by their names.
#[derive(Drop)]
pub struct Plan {
    pub cards: Cards,
    pub globals: usize,
    pub cells: Vec<Option<CellPlan>>,
    pub top: u32,
    pub openings: Vec<OpeningPlan>,
    pub places: Names,
    pub ports: Names,
}

// The names of cells, by their places.
fn cell_names(alloc: Global, cells: &[Cell]) -> Result<Names, NoMemory>
    requires { has_twice (map name_of_cell cells.now) ≡ false }
    ensures { IfOk result (λ names. names ≡ map name_of_cell cells.now) }
{
    let mut names = Names::new(alloc);
    for cell in cells {
        names.number(cell.name.bytes())?;
    }
    Ok(names)
}

// The names of globals, by their places.
fn global_names(alloc: Global, globals: &[GlobalNet]) -> Result<Names, NoMemory>
    requires { has_twice (map name_of_global globals.now) ≡ false }
    ensures { IfOk result (λ names. names ≡ map name_of_global globals.now) }
{
    let mut names = Names::new(alloc);
    for global in globals {
        names.number(global.name.bytes())?;
    }
    Ok(names)
}

// The number of the cell of this name.
fn cell_number(cells: &[Cell], names: &Names, name: &[u8]) -> Option<usize>
    requires { names.now ≡ map name_of_cell cells.now }
    ensures inside { IfSome result (λ k. k < length cells.now) }
    ensures cell { MatchOption result (cell_named cells.now name.now ≡ None) (λ k. cell_named cells.now name.now ≡ Some (slice_index_or cells.now k no_cell)) }
{
    names.find(name)
}

// What is kept of a device in a cell of these ports.
fn device_plan(
    cards: &mut Cards,
    globals: usize,
    ports: &Names,
    card: &DeviceCard,
) -> Result<ItemPlan, NoMemory>
    requires formed { length card.now.nets ≡ net_count card.now.letter }
    requires below { globals ≤ length cards.old.names }
    requires sound { AreSoundCards cards.old }
    ensures grows { IfOk result (λ plan. CardsGrow cards.old cards.new) }
    ensures sound { IfOk result (λ plan. AreSoundCards cards.new) }
    ensures plan { IfOk result (λ plan. (n : Netlist) → take globals cards.old.names ≡ names_of_globals n
        → IsItemPlan n cards.new ports.now (items.Device card.now) plan) }
{
    let name = number(&mut cards.names, card.name.bytes())?;
    let pins = device_pins(&mut cards.names, globals, ports, card.nets.as_slice())?;
    let model = number(&mut cards.names, card.model.bytes())?;
    let place = narrow(cards.devices.len())?;
    cards.devices.push(DevicePart {
        letter: card.letter,
        name,
        line: card.line,
    })?;
    Ok(ItemPlan::Device(place, DevicePlan { pins, model }))
}

// What is kept of an instance, in a cell of these ports, of the cell of this number.
fn inst_plan(
    alloc: Global,
    cards: &mut Cards,
    globals: usize,
    ports: &Names,
    place: usize,
    cell: &Cell,
    card: &InstCard,
) -> Result<ItemPlan, NoMemory>
    requires fits { ports_cause cell.now.ports card.now.ports ≡ None }
    requires given { ConnectsOnce card.now.ports }
    requires once { has_twice cell.now.ports ≡ false }
    requires below { globals ≤ length cards.old.names }
    requires sound { AreSoundCards cards.old }
    ensures grows { IfOk result (λ plan. CardsGrow cards.old cards.new) }
    ensures sound { IfOk result (λ plan. AreSoundCards cards.new) }
    ensures plan { IfOk result (λ plan. (n : Netlist) → take globals cards.old.names ≡ names_of_globals n → place < length n.cells
        → slice_index_or n.cells place no_cell ≡ cell.now → cell_for n card.now.cell ≡ cell.now
        → IsItemPlan n cards.new ports.now (items.Inst card.now) plan) }
{
    let used = cell.ports.as_slice();
    let part = part_of(alloc, &mut cards.names, used, card)?;
    let plans = port_plans(alloc, &mut cards.names, globals, ports, used, &card.ports)?;
    let number = narrow(cards.parts.len())?;
    let cell = narrow(place)?;
    cards.parts.push(part)?;
    Ok(ItemPlan::Inst(number, InstPlan { cell, ports: plans }))
}

// What is kept of an item in a cell of these ports.
pub(crate) fn item_plan(
    alloc: Global,
    netlist: &Netlist,
    names: &Names,
    cards: &mut Cards,
    globals: usize,
    ports: &Names,
    item: &Item,
) -> Result<ItemPlan, NoMemory>
    requires well { IsWellFormed netlist.now }
    requires names { names.now ≡ map name_of_cell netlist.now.cells }
    requires formed { IsFormedItem netlist.now.cells item.now }
    requires below { globals ≤ length cards.old.names }
    requires globals { take globals cards.old.names ≡ names_of_globals netlist.now }
    requires sound { AreSoundCards cards.old }
    ensures grows { IfOk result (λ plan. CardsGrow cards.old cards.new) }
    ensures sound { IfOk result (λ plan. AreSoundCards cards.new) }
    ensures plan { IfOk result (IsItemPlan netlist.now cards.new ports.now item.now) }
{
    match item {
        Item::Device(card) => device_plan(cards, globals, ports, card),
        Item::Inst(card) => {
            let cells = netlist.cells.as_slice();
            match cell_number(cells, names, card.cell.bytes()) {
                Some(place) => inst_plan(alloc, cards, globals, ports, place, &cells[place], card),
                None => unreachable!(),
            }
        }
    }
}

// What is kept of a cell's items.
pub(crate) fn cell_plan(
    alloc: Global,
    netlist: &Netlist,
    names: &Names,
    cards: &mut Cards,
    globals: usize,
    cell: &Cell,
) -> Result<CellPlan, NoMemory>
    requires well { IsWellFormed netlist.now }
    requires names { names.now ≡ map name_of_cell netlist.now.cells }
    requires formed { IsFormedLevel netlist.now.cells cell.now }
    requires below { globals ≤ length cards.old.names }
    requires globals { take globals cards.old.names ≡ names_of_globals netlist.now }
    requires sound { AreSoundCards cards.old }
    ensures grows { IfOk result (λ plan. CardsGrow cards.old cards.new) }
    ensures sound { IfOk result (λ plan. AreSoundCards cards.new) }
    ensures plan { IfOk result (IsCellPlan netlist.now cards.new cell.now) }
{
    let ports = port_names(alloc, cell.ports.as_slice())?;
    let mut plans = Vec::new(alloc);
    for item in cell.items.as_slice() {
        plans.push(item_plan(alloc, netlist, names, cards, globals, &ports, item)?)?;
    }
    Ok(CellPlan { items: plans })
}

// The number of the top among all cells.
fn top_number(netlist: &Netlist, names: &Names) -> Result<u32, NoMemory>
    requires formed { IsWellFormed netlist.now }
    requires names { names.now ≡ map name_of_cell netlist.now.cells }
    ensures inside { IfOk result (λ k. k ≤ length netlist.now.cells) }
    ensures top { IfOk result (λ k. slice_index_or (all_cells netlist.now) k no_cell ≡ cell_at netlist.now []) }
{
    match &netlist.top {
        None => narrow(netlist.cells.len()),
        Some(name) => match cell_number(netlist.cells.as_slice(), names, name.bytes()) {
            Some(place) => narrow(place),
            None => unreachable!(),
        },
    }
}

/// One of all cells.
pub fn cell_of(netlist: &Netlist, number: usize) -> &Cell
    requires { number ≤ length netlist.now.cells }
    ensures { result.now ≡ slice_index_or (all_cells netlist.now) number no_cell }
{
    if number < netlist.cells.len() {
        netlist.cells.get(number)
    } else {
        &netlist.main
    }
}

// The globals, and the ports of the top.
fn openings_of(
    alloc: Global,
    names: &mut Names,
    globals: &[GlobalNet],
    top: &Cell,
) -> Result<Vec<OpeningPlan>, NoMemory>
    ensures grows { IfOk result (λ openings. Grows names.old names.new) }
    ensures within { IfOk result (λ openings. All (λ o. o.name < length names.new) openings.items) }
    ensures openings { IfOk result (λ openings. map (opening_of names.new) openings.items ≡ openings_at globals.now top.now) }
{
    let mut openings = Vec::new(alloc);
    for global in globals {
        let name = number(names, global.name.bytes())?;
        openings.push(OpeningPlan {
            name,
            line: global.line,
        })?;
    }
    for port in top.ports.as_slice() {
        let name = number(names, port.bytes())?;
        openings.push(OpeningPlan {
            name,
            line: top.line,
        })?;
    }
    Ok(openings)
}

// No cell has a plan, the main level last.
fn no_plans(alloc: Global, netlist: &Netlist) -> Result<Vec<Option<CellPlan>>, NoMemory>
    ensures { IfOk result (λ plans. AllZip HasNoPlan (all_cells netlist.now) plans.items) }
{
    let mut plans = Vec::new(alloc);
    for _cell in netlist.cells.as_slice() {
        plans.push(None)?;
    }
    plans.push(None)?;
    Ok(plans)
}

/// The plan of a netlist of whose items none is kept yet.
pub fn open_plan(alloc: Global, netlist: &Netlist) -> Result<Plan, NoMemory>
    requires { IsWellFormed netlist.now }
    ensures { IfOk result (IsPlan netlist.now) }
{
    let places = cell_names(alloc, netlist.cells.as_slice())?;
    let top = top_number(netlist, &places)?;
    let first = cell_of(netlist, top as usize);
    let ports = port_names(alloc, first.ports.as_slice())?;
    let mut names = global_names(alloc, netlist.globals.as_slice())?;
    let globals = names.len();
    let openings = openings_of(alloc, &mut names, netlist.globals.as_slice(), first)?;
    check_count(&names)?;
    let cells = no_plans(alloc, netlist)?;
    let cards = Cards {
        names,
        parts: Vec::new(alloc),
        devices: Vec::new(alloc),
    };
    Ok(Plan {
        cards,
        globals,
        cells,
        top,
        openings,
        places,
        ports,
    })
}
