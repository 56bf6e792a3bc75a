use cvc_base::{NoMemory, Pair, Pairs, Text, Texts};
use cvc_card::{DeviceCard, InstCard, Letter, Ports};
use cvc_cdl::{Cell, Cells, Global, Globals, Item, Items, Netlist, netlist_text};
use std::alloc::Global as Heap;
use std::test::Fail;

fn text(alloc: Heap, word: &str) -> Result<Text, NoMemory> {
    Text::of(alloc, word.as_bytes())
}

/// The words of a line, which blanks part.
fn texts(alloc: Heap, words: &str) -> Result<Texts, NoMemory> {
    let mut list = Texts::new(alloc);
    for word in words.split_whitespace() {
        list.push(text(alloc, word)?)?;
    }
    Ok(list)
}

/// Pairs from names and values.
fn pairs(alloc: Heap, entries: &[(&str, &str)]) -> Result<Pairs, NoMemory> {
    let mut list = Pairs::new(alloc);
    for (name, value) in entries {
        list.push(Pair {
            name: text(alloc, name)?,
            value: text(alloc, value)?,
        })?;
    }
    Ok(list)
}

fn device(
    alloc: Heap,
    letter: Letter,
    name: &str,
    nets: &str,
    model: &str,
    entries: &[(&str, &str)],
) -> Result<Item, NoMemory> {
    Ok(Item::Device(DeviceCard {
        letter,
        name: text(alloc, name)?,
        nets: texts(alloc, nets)?,
        model: text(alloc, model)?,
        pairs: pairs(alloc, entries)?,
        line: 1,
    }))
}

fn instance(
    alloc: Heap,
    name: &str,
    cell: &str,
    ports: Ports,
    entries: &[(&str, &str)],
) -> Result<Item, NoMemory> {
    Ok(Item::Inst(InstCard {
        name: text(alloc, name)?,
        cell: text(alloc, cell)?,
        ports,
        pairs: pairs(alloc, entries)?,
        line: 1,
    }))
}

fn level(alloc: Heap, name: &str, ports: &str, items: Items) -> Result<Cell, NoMemory> {
    Ok(Cell {
        name: text(alloc, name)?,
        ports: texts(alloc, ports)?,
        pairs: Pairs::new(alloc),
        items,
        line: 0,
    })
}

fn globals(alloc: Heap, names: &str) -> Result<Globals, NoMemory> {
    let mut list = Globals::new(alloc);
    for word in names.split_whitespace() {
        list.push(Global {
            name: text(alloc, word)?,
            line: 1,
        })?;
    }
    Ok(list)
}

/// One item.
fn only(alloc: Heap, item: Item) -> Result<Items, NoMemory> {
    let mut items = Items::new(alloc);
    items.push(item)?;
    Ok(items)
}

fn resistor(alloc: Heap) -> Result<Netlist, NoMemory> {
    let item = device(alloc, Letter::R, "R1", "a b", "R", &[("R", "100")])?;
    let items = only(alloc, item)?;
    Ok(Netlist {
        globals: Globals::new(alloc),
        params: Pairs::new(alloc),
        cells: Cells::new(alloc),
        main: level(alloc, "", "", items)?,
        top: None,
    })
}

#[test]
fn printed_netlist(rt: HostRuntime) -> Result<(), Fail> {
    let netlist = resistor(rt.alloc())?;
    let printed = netlist_text(rt.alloc(), &netlist)?;
    assert_eq!(rt; printed.bytes(), b"R1 a b $[R] $R=100\n".as_slice());
    Ok(())
}

fn inverters(alloc: Heap) -> Result<Cells, NoMemory> {
    let sizes = [("L", "w"), ("W", "2u")];
    let item = device(alloc, Letter::M, "MN", "Y A VSS VSS", "nch", &sizes)?;
    let mut cell = level(alloc, "INV", "A Y", only(alloc, item)?)?;
    cell.pairs = pairs(alloc, &[("w", "1u")])?;
    let mut cells = Cells::new(alloc);
    cells.push(cell)?;
    Ok(cells)
}

fn by_order(alloc: Heap) -> Result<Item, NoMemory> {
    let nets = Ports::ByOrder(texts(alloc, "in out")?);
    instance(alloc, "X1", "INV", nets, &[("w", "3u")])
}

fn by_name(alloc: Heap) -> Result<Item, NoMemory> {
    let connections = Ports::ByName(pairs(alloc, &[("Y", "in"), ("A", "out")])?);
    instance(alloc, "X2", "INV", connections, &[("w", "4u")])
}

fn instances(alloc: Heap) -> Result<Items, NoMemory> {
    let mut items = only(alloc, by_order(alloc)?)?;
    items.push(by_name(alloc)?)?;
    Ok(items)
}

fn all_parts(alloc: Heap) -> Result<Netlist, NoMemory> {
    let items = instances(alloc)?;
    Ok(Netlist {
        globals: globals(alloc, "VDD VSS")?,
        params: pairs(alloc, &[("p", "1"), ("p", "2")])?,
        cells: inverters(alloc)?,
        main: level(alloc, "", "", items)?,
        top: None,
    })
}

#[test]
fn every_part_is_printed_in_order(rt: HostRuntime) -> Result<(), Fail> {
    let netlist = all_parts(rt.alloc())?;
    let printed = netlist_text(rt.alloc(), &netlist)?;
    let expected =
        b"*.GLOBAL VDD VSS\n.PARAM $p=1 $p=2\n.SUBCKT INV A Y $w=1u\nMN Y A VSS VSS $[nch] $L=w $W=2u\n.ENDS\n\
            X1 in out / INV $w=3u\nX2 / INV $w=4u $PINS $Y=in $A=out\n";
    assert_eq!(rt; printed.bytes(), expected.as_slice());
    Ok(())
}
