//! The generated texts.
ghost use Rattle.std.specs.Prelude.{◌≡◌, ◌+◌, ◌%◌, ◌<◌, ◌≤◌, ◌++◌, map, OnOk, IfOk};
ghost use Rattle.std.specs.List.{flat_map};
ghost use Rattle.cvc_gen.specs.Stages.{line, text_of, cell_lines, cell_of, stage_line, stage_lines, netlist_text, model_lines, power_lines};

use cvc_base::{NoMemory, Text};
use itoa::Buffer;
use std::alloc::Global;

/// The three files of a generated circuit.
#[derive(Debug, Drop)]
pub struct Generated {
    pub netlist: Text,
    pub models: Text,
    pub power: Text,
}

const CELLS: &[u8] = b"*.GLOBAL VDD VSS
.SUBCKT INV A Y
MN Y A VSS VSS nch L=0.1u
MP Y A VDD VDD pch L=0.1u
.ENDS
.SUBCKT LINK A Y
R1 A Y 100
.ENDS
.SUBCKT LOST A Y
R1 A Y 100
MN Y F VSS VSS nch L=0.1u
.ENDS
";

const MODELS: &[u8] = b"nch nmos Vth=0.4 Vgs=1.32 Vgd=1.32 Vds=1.32
pch pmos Vth=-0.4 Vgs=1.32 Vgd=1.32 Vds=1.32
R resistor
";

const POWER: &[u8] = b"VDD power 1.2
VSS power 0
n0 input 0 1.2
";

// No line of a stage is longer.
const LINE_ROOM: usize = 36;

// The cell of a stage. The sum of the remainders doesn't overflow.
fn cell_of(seed: u64, stage: u32) -> &'static [u8]
    ensures { result.now ≡ cell_of ((seed + stage) % 5) }
{
    match (seed % 5 + u64::from(stage)) % 5 {
        3 => b"LINK",
        4 => b"LOST",
        _ => b"INV",
    }
}

// The pieces, one after the other.
fn put(out: &mut Vec<u8>, pieces: &[&[u8]]) -> Result<(), NoMemory>
    ensures { OnOk result (out.new.items ≡ out.old.items ++ flat_map (λ piece. piece) (map (λ piece. piece.now) pieces.now)) }
{
    for piece in pieces {
        out.extend_from_slice(piece)?;
    }
    Ok(())
}

fn put_stage(out: &mut Vec<u8>, seed: u64, stage: u32) -> Result<(), NoMemory>
    requires { stage < 200000 }
    ensures { OnOk result (out.new.items ≡ out.old.items ++ line (stage_line seed stage)) }
{
    let mut this = Buffer::new();
    let mut next = Buffer::new();
    let this = this.format(stage).as_bytes();
    let next = next.format(stage + 1).as_bytes();
    let cell = cell_of(seed, stage);
    put(
        out,
        &[
            b"X".as_slice(),
            this,
            b" n",
            this,
            b" n",
            next,
            b" / ",
            cell,
            b"\n",
        ],
    )
}

#[tactic(auto, unfolding(crate::specs::Stages::cell_lines))]
fn netlist(alloc: Global, seed: u64, size: u32) -> Result<Vec<u8>, NoMemory>
    requires { size ≤ 200000 }
    ensures { IfOk result (λ text. text.items ≡ netlist_text seed size) }
{
    let mut out = Vec::with_capacity(alloc, CELLS.len() + size as usize * LINE_ROOM)?;
    out.extend_from_slice(CELLS)?;
    for stage in 0..size {
        put_stage(&mut out, seed, stage)?;
    }
    Ok(out)
}

/// The files of the circuit of this seed with `size` stages. Linear in their length.
#[tactic(auto, unfolding(crate::specs::Stages::model_lines, crate::specs::Stages::power_lines))]
pub fn netlist_of(alloc: Global, seed: u64, size: u32) -> Result<Generated, NoMemory>
    requires some { 1 ≤ size }
    requires limit { size ≤ 200000 }
    ensures netlist { IfOk result (λ files. files.netlist ≡ netlist_text seed size) }
    ensures models { IfOk result (λ files. files.models ≡ text_of model_lines) }
    ensures power { IfOk result (λ files. files.power ≡ text_of power_lines) }
{
    let netlist = netlist(alloc, seed, size)?;
    Ok(Generated {
        netlist: Text::of(alloc, &netlist)?,
        models: Text::of(alloc, MODELS)?,
        power: Text::of(alloc, POWER)?,
    })
}
