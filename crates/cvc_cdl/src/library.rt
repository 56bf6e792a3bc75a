//! The cells of a netlist by their names.
ghost use Rattle.std.specs.Prelude.{◌≡◌, ◌<◌, length, map, IfOk, IfSome};
ghost use Rattle.cvc_cdl.specs.Netlist.{name_of_cell};
ghost use Rattle.cvc_cdl.specs.Ending.{connects_ports, instance_cause, ports_cause};
ghost use Rattle.cvc_cdl.specs.Lookup.{FindsPorts, FindsEachPort, place_of};
ghost use Rattle.cvc_cdl.specs.Placed.{IsPlaced};

use crate::netlist::Cell;
use cvc_base::{Cause, NoMemory, Pair, Text};
use cvc_card::{InstCard, Ports};
use cvc_names::{BorrowedNames, Names};
use std::alloc::Global;

// The names of these ports.
fn names_of<'a>(alloc: Global, ports: &'a [Text]) -> Result<BorrowedNames<'a>, NoMemory>
    ensures { IfOk result (FindsPorts ports.now) }
{
    let mut names = BorrowedNames::new(alloc);
    for port in ports {
        names.insert(port.bytes())?;
    }
    Ok(names)
}

// Whether each pair names a port.
fn connects(names: &BorrowedNames<'_>, ports: &[Text], pairs: &[Pair]) -> bool
    requires { FindsPorts ports.now names.now }
    ensures { result ≡ connects_ports ports.now pairs.now }
{
    for pair in pairs {
        if !names.contains(pair.name.bytes()) {
            return false;
        }
    }
    true
}

// Why these ports don't fit a cell, whose ports have these names.
fn misfit(names: &BorrowedNames<'_>, cell: &Cell, ports: &Ports) -> Option<Cause>
    requires { FindsPorts cell.now.ports names.now }
    ensures { result ≡ ports_cause cell.now.ports ports.now }
{
    match ports {
        Ports::ByOrder(nets) if nets.len() != cell.ports.len() => Some(Cause::PortCount),
        Ports::ByName(pairs) if !connects(names, cell.ports.as_slice(), pairs.as_slice()) => Some(
            Cause::UnknownPort,
        ),
        _ => None,
    }
}

// The names of the ports of each cell.
fn port_names<'a>(alloc: Global, cells: &'a [Cell]) -> Result<Vec<BorrowedNames<'a>>, NoMemory>
    ensures { IfOk result (λ names. FindsEachPort cells.now names.items) }
{
    let mut names = Vec::new(alloc);
    for cell in cells {
        names.push(names_of(alloc, cell.ports.as_slice())?)?;
    }
    Ok(names)
}

/// An instance, with the place of the cell that it names.
#[derive(Drop)]
pub(crate) struct Placed<'a> {
    pub inst: &'a InstCard,
    pub place: Option<usize>,
}

/// The cells of a netlist, with their names and the names of their ports.
#[derive(Drop)]
pub(crate) struct Library<'a> {
    pub cells: &'a [Cell],
    pub names: &'a Names,
    pub ports: Vec<BorrowedNames<'a>>,
    ghost named: { names.now ≡ map name_of_cell cells.now },
    ghost ported: { FindsEachPort cells.now ports.items },
}

impl<'a> Library<'a> {
    /// The library of these cells, which have these names, in time linear in their ports.
    pub(crate) fn of(
        alloc: Global,
        cells: &'a [Cell],
        names: &'a Names,
    ) -> Result<Library<'a>, NoMemory>
        requires { names.now ≡ map name_of_cell cells.now }
        ensures { IfOk result (λ library. library.cells.now ≡ cells.now) }
    {
        let ports = port_names(alloc, cells)?;
        Ok(Library {
            cells,
            names,
            ports,
        })
    }

    /// The place of the cell of this name.
    pub(crate) fn place(&self, name: &[u8]) -> Option<usize>
        ensures place { result ≡ place_of (map name_of_cell self.now.cells.now) name.now }
        ensures within { IfSome result (λ place. place < length self.now.cells.now) }
    {
        self.names.find(name)
    }

    /// An instance with its place.
    pub(crate) fn placed<'b>(&self, inst: &'b InstCard) -> Placed<'b>
        ensures inst { result.inst.now ≡ inst.now }
        ensures placed { IsPlaced self.now.cells.now result }
    {
        let place = self.place(inst.cell.bytes());
        Placed { inst, place }
    }

    /// Why an instance doesn't fit its cell.
    pub(crate) fn cause(&self, placed: &Placed<'_>) -> Option<Cause>
        requires { IsPlaced self.now.cells.now placed.now }
        ensures { result ≡ instance_cause self.now.cells.now placed.now.inst.now }
    {
        let Some(place) = placed.place else {
            return Some(Cause::UnknownCell);
        };
        misfit(&self.ports[place], &self.cells[place], &placed.inst.ports)
    }
}
