//! The checker as a library: it checks a design that stands in memory, and tells what one of its nets may reach. docs/LIBRARY.md goes through it.
#![tactic(auto)]

ghost use Rattle.std.specs.Prelude.{◌≡◌, None, IfOk, length, map};
ghost use Rattle.cvc_io.specs.Memory.{standing_of};
ghost use Rattle.cvc_judge.specs.Judged.{IsJudged};
ghost use Rattle.cvc_law.specs.Bound.{IsBound};
ghost use Rattle.cvc_model.specs.Bindable.{AreBindable};

mod asking;

use asking::{Answer, ask};
use cvc_base::{NoMemory, Text};
use cvc_flat::Flat;
use cvc_io::{MemShelf, StdSink, WriteFailed};
use cvc_law::Interval;
use cvc_power::read_power;
use cvc_report::write_report;
use cvc_run::{Design, LoadFault, load_design};
use std::alloc::Global;
use std::process::ExitCode;

const NETLIST: &[u8] = b"MP Y A VDDH VDDH phv\nMN Y A VSS VSS nhv\n";

const MODELS: &[u8] = b"nhv nmos Vth=0.6:0.8\nphv pmos Vth=-0.6:-0.8\n";

const POWER: &[u8] = b"VDDH power 3.3\nVSS power 0\nA input 0 1.2\n";

const NET: &[u8] = b"Y";

// A netlist and models, as files in memory.
fn files(alloc: Global) -> Result<MemShelf, NoMemory>
    ensures { IfOk result (λ shelf. standing_of shelf ≡ None) }
{
    let mut shelf = MemShelf::new(alloc);
    shelf.add(b"netlist", NETLIST)?;
    shelf.add(b"models", MODELS)?;
    Ok(shelf)
}

// The design of these files, read as those of a run are.
fn design(alloc: Global) -> Result<Design, LoadFault>
    ensures { IfOk result (λ d. AreBindable d.models) }
{
    let mut shelf = files(alloc)?;
    let netlist = Text::of(alloc, b"netlist")?;
    let models = Text::of(alloc, b"models")?;
    load_design(alloc, &netlist, &models, None, &mut shelf)
}

// Tells what the net may reach, where both of its bounds are known.
fn tell_bounds(rt: &HostRuntime, bounds: Option<Interval>) -> Result<(), WriteFailed> {
    let Some(
        Interval {
            low: Some(low),
            high: Some(high),
        },
    ) = bounds
    else {
        return Ok(());
    };
    let (low, high) = (low.get(), high.get());
    match println!(rt; "from {low} to {high} millivolts") {
        Ok(()) => Ok(()),
        Err(_) => Err(WriteFailed),
    }
}

// Tells what the net may reach, and then writes the report.
fn tell(rt: &HostRuntime, flat: &Flat, answer: &Answer) -> Result<(), WriteFailed>
    requires bound { IsBound (length flat.now.list.nets) (map (λ d. d.pins) flat.now.list.devices) answer.now.judged.circuit }
    requires judged { IsJudged answer.now.judged }
{
    tell_bounds(rt, answer.bounds)?;
    let judged = &answer.judged;
    let mut sink = StdSink::new(rt);
    write_report(
        &judged.circuit,
        flat,
        &judged.family,
        &judged.findings,
        false,
        &mut sink,
    )
}

// Asks for the net, and tells the answer.
fn run(rt: &HostRuntime, alloc: Global) -> ExitCode {
    let Ok(design) = design(alloc) else {
        return ExitCode::FAILURE;
    };
    let Ok(power) = read_power(alloc, POWER) else {
        return ExitCode::FAILURE;
    };
    match ask(alloc, &design.flat, &design.models, &power, NET) {
        Ok(answer) if tell(rt, &design.flat, &answer).is_ok() => ExitCode::SUCCESS,
        _ => ExitCode::FAILURE,
    }
}

fn main(rt: HostRuntime) -> ExitCode {
    run(&rt, rt.alloc())
}
