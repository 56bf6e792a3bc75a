//! The text of a netlist, which reads back as the netlist.
ghost use Rattle.std.specs.Prelude.{◌≡◌, ◌++◌, OnOk, IfOk, codes};
ghost use Rattle.cvc_cdl.specs.Text.{cell_text, device_text, global_word, globals_text, instance_text, item_line, items_text, pair_text, pairs_text};
ghost use Rattle.cvc_cdl.specs.Text.{params_text, spaced, spaced_words, text_of};
ghost use Rattle.std.specs.List.{flat_map};

use crate::netlist::{Cell, Global, Item, Netlist};
use cvc_base::{NoMemory, Pair, Text};
use cvc_card::{DeviceCard, InstCard, Ports};
use std::alloc::Global as Allocator;

// A word behind a blank.
fn put_word(out: &mut Vec<u8>, word: &Text) -> Result<(), NoMemory>
    ensures { OnOk result (out.new.items ≡ out.old.items ++ spaced word.now) }
{
    out.push(b' ')?;
    out.extend_from_slice(word.bytes())?;
    Ok(())
}

fn put_words(out: &mut Vec<u8>, words: &[Text]) -> Result<(), NoMemory>
    ensures { OnOk result (out.new.items ≡ out.old.items ++ spaced_words words.now) }
{
    for word in words {
        put_word(out, word)?;
    }
    Ok(())
}

fn put_pair(out: &mut Vec<u8>, pair: &Pair) -> Result<(), NoMemory>
    ensures { OnOk result (out.new.items ≡ out.old.items ++ pair_text pair.now) }
{
    out.extend_from_slice(b" $")?;
    out.extend_from_slice(pair.name.bytes())?;
    out.push(b'=')?;
    out.extend_from_slice(pair.value.bytes())?;
    Ok(())
}

fn put_pairs(out: &mut Vec<u8>, pairs: &[Pair]) -> Result<(), NoMemory>
    ensures { OnOk result (out.new.items ≡ out.old.items ++ pairs_text pairs.now) }
{
    for pair in pairs {
        put_pair(out, pair)?;
    }
    Ok(())
}

fn put_device(out: &mut Vec<u8>, device: &DeviceCard) -> Result<(), NoMemory>
    ensures { OnOk result (out.new.items ≡ out.old.items ++ device_text device.now) }
{
    out.extend_from_slice(device.name.bytes())?;
    put_words(out, device.nets.as_slice())?;
    out.extend_from_slice(b" $[")?;
    out.extend_from_slice(device.model.bytes())?;
    out.push(b']')?;
    put_pairs(out, device.pairs.as_slice())
}

// The cell of an instance, behind a lone `/`.
fn put_cell_name(out: &mut Vec<u8>, cell: &Text) -> Result<(), NoMemory>
    ensures { OnOk result (out.new.items ≡ out.old.items ++ codes " / " ++ cell.now) }
{
    out.extend_from_slice(b" / ")?;
    out.extend_from_slice(cell.bytes())?;
    Ok(())
}

fn put_instance(out: &mut Vec<u8>, inst: &InstCard) -> Result<(), NoMemory>
    ensures { OnOk result (out.new.items ≡ out.old.items ++ instance_text inst.now) }
{
    out.extend_from_slice(inst.name.bytes())?;
    match &inst.ports {
        Ports::ByOrder(nets) => {
            put_words(out, nets.as_slice())?;
            put_cell_name(out, &inst.cell)?;
            put_pairs(out, inst.pairs.as_slice())
        }
        Ports::ByName(connections) => {
            put_cell_name(out, &inst.cell)?;
            put_pairs(out, inst.pairs.as_slice())?;
            out.extend_from_slice(b" $PINS")?;
            put_pairs(out, connections.as_slice())
        }
    }
}

// The line of a device or an instance.
fn put_item(out: &mut Vec<u8>, item: &Item) -> Result<(), NoMemory>
    ensures { OnOk result (out.new.items ≡ out.old.items ++ item_line item.now) }
{
    match item {
        Item::Device(device) => put_device(out, device)?,
        Item::Inst(inst) => put_instance(out, inst)?,
    }
    out.push(b'\n')?;
    Ok(())
}

fn put_items(out: &mut Vec<u8>, items: &[Item]) -> Result<(), NoMemory>
    ensures { OnOk result (out.new.items ≡ out.old.items ++ items_text items.now) }
{
    for item in items {
        put_item(out, item)?;
    }
    Ok(())
}

// A cell, from its `.SUBCKT` line to its `.ENDS` line.
fn put_cell(out: &mut Vec<u8>, cell: &Cell) -> Result<(), NoMemory>
    ensures { OnOk result (out.new.items ≡ out.old.items ++ cell_text cell.now) }
{
    out.extend_from_slice(b".SUBCKT ")?;
    out.extend_from_slice(cell.name.bytes())?;
    put_words(out, cell.ports.as_slice())?;
    put_pairs(out, cell.pairs.as_slice())?;
    out.push(b'\n')?;
    put_items(out, cell.items.as_slice())?;
    out.extend_from_slice(b".ENDS\n")?;
    Ok(())
}

fn put_cells(out: &mut Vec<u8>, cells: &[Cell]) -> Result<(), NoMemory>
    ensures { OnOk result (out.new.items ≡ out.old.items ++ flat_map cell_text cells.now) }
{
    for cell in cells {
        put_cell(out, cell)?;
    }
    Ok(())
}

fn put_global_names(out: &mut Vec<u8>, globals: &[Global]) -> Result<(), NoMemory>
    ensures { OnOk result (out.new.items ≡ out.old.items ++ flat_map global_word globals.now) }
{
    for global in globals {
        put_word(out, &global.name)?;
    }
    Ok(())
}

// The line of the global nets, if there are any.
fn put_globals(out: &mut Vec<u8>, globals: &[Global]) -> Result<(), NoMemory>
    ensures { OnOk result (out.new.items ≡ out.old.items ++ globals_text globals.now) }
{
    if globals.is_empty() {
        return Ok(());
    }
    out.extend_from_slice(b"*.GLOBAL")?;
    put_global_names(out, globals)?;
    out.push(b'\n')?;
    Ok(())
}

// The line of the parameters, if there are any.
fn put_params(out: &mut Vec<u8>, params: &[Pair]) -> Result<(), NoMemory>
    ensures { OnOk result (out.new.items ≡ out.old.items ++ params_text params.now) }
{
    if params.is_empty() {
        return Ok(());
    }
    out.extend_from_slice(b".PARAM")?;
    put_pairs(out, params)?;
    out.push(b'\n')?;
    Ok(())
}

/// The text of a netlist, in linear time. Each line ends in LF. First are the global nets, if there are any, on one line `*.GLOBAL`, then the
/// parameters on one line `.PARAM`, then each cell from its line `.SUBCKT` to its line `.ENDS`, and then what stands outside of cells.
#[tactic(auto, unfolding(crate::specs::Text::text_of))]
pub fn netlist_text(alloc: Allocator, netlist: &Netlist) -> Result<Text, NoMemory>
    ensures { IfOk result (λ text. text ≡ text_of netlist.now) }
{
    let mut out = Vec::new(alloc);
    put_globals(&mut out, netlist.globals.as_slice())?;
    put_params(&mut out, netlist.params.as_slice())?;
    put_cells(&mut out, netlist.cells.as_slice())?;
    put_items(&mut out, netlist.main.items.as_slice())?;
    Text::of(alloc, &out)
}
