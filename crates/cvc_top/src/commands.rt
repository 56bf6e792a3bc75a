//! The commands of the program.
ghost use Rattle.std.specs.Prelude.{◌≡◌, ◌≤◌, None};
ghost use Rattle.cvc_cdl.specs.Builder.{named_top};
ghost use Rattle.cvc_run.specs.Due.{no_file};
ghost use Rattle.cvc_run.specs.Outside.{taken};
ghost use Rattle.cvc_run.specs.Run.{Answers};
ghost use Rattle.cvc_run.specs.Shelves.{Leaves};
ghost use Rattle.cvc_top.specs.Outcome.{command_run, words_run};
ghost use Rattle.cvc_words.specs.Command.{IsWithin, command_of};

use crate::expect::expect;
use crate::modes::modes;
use crate::prove::prove;
use crate::session::session;
use crate::verify::verify;
use cvc_base::{Text, Texts};
use cvc_crew::NoGate;
use cvc_io::{Shelf, Sink};
use cvc_modes::NoModeGate;
use cvc_run::{Status, check, check_serial, survey, tell};
use cvc_words::{Command, WordRefusal, read_words};
use std::alloc::Global;
use std::sync::Wait;
use std::thread::Threads;

// A name, if there is one.
fn name_of(name: &Option<Text>) -> Option<&Text>
    ensures { named_top result ≡ name.now }
{
    match name {
        Some(text) => Some(text),
        None => None,
    }
}

// Does what the words ask for.
fn run_command<R: Threads + Wait + Sync, S: Shelf, K: Sink>(
    rt: &R,
    alloc: Global,
    command: &Command,
    shelf: &mut S,
    sink: &mut K,
) -> Status
    requires closed { S.standing shelf.old ≡ None }
    requires within { IsWithin command.now }
    ensures shelf { Leaves (S.standing shelf.new) (S.files shelf.old) (S.files shelf.new) (S.faults shelf.old) (S.faults shelf.new) }
    ensures untouched { (command_run (S.files shelf.old) command.now).due ≡ no_file → shelf.new ≡ shelf.old }
    ensures sink { K.faults sink.old ≤ K.faults sink.new }
    ensures answer { Answers (command_run (S.files shelf.old) command.now) (S.faults shelf.old) (S.faults shelf.new)
        (taken (K.written sink.old) (K.written sink.new) (K.faults sink.old) (K.faults sink.new)) result }
{
    match command {
        Command::Check(job) => check(rt, alloc, job, shelf, sink, &NoGate),
        Command::Serial(job) => check_serial(alloc, job, shelf, sink),
        Command::Gen {
            seed,
            size,
            workers,
        } => survey(rt, alloc, *seed, *size, *workers, sink, &NoGate),
        Command::Expect {
            netlist,
            models,
            power,
            expected,
            top,
        } => expect(
            alloc,
            netlist,
            models,
            power,
            expected,
            name_of(top),
            shelf,
            sink,
        ),
        Command::Prove {
            netlist,
            models,
            power,
            top,
        } => prove(alloc, netlist, models, power, name_of(top), shelf, sink),
        Command::Verify {
            netlist,
            models,
            power,
            log,
            report,
            top,
            nets,
        } => verify(
            alloc,
            netlist,
            models,
            power,
            log,
            report,
            name_of(top),
            *nets,
            shelf,
            sink,
        ),
        Command::Modes {
            netlist,
            models,
            list,
            top,
        } => modes(
            rt,
            alloc,
            netlist,
            models,
            list,
            name_of(top),
            shelf,
            sink,
            &NoModeGate,
        ),
        Command::Session {
            netlist,
            models,
            power,
            edits,
            top,
            nets,
        } => session(
            alloc,
            netlist,
            models,
            power,
            edits,
            name_of(top),
            *nets,
            shelf,
            sink,
        ),
    }
}

/// All that the program does: it takes the words of the command line behind the program's name, reads the files that they name from the shelf, and
/// writes the report, the summary or the line of the first refusal to the sink. No file is left open, and refused words open none. That a file is opened
/// only when all before it are accepted is tested.
pub fn top<R: Threads + Wait + Sync, S: Shelf, K: Sink>(
    rt: &R,
    alloc: Global,
    words: &Texts,
    shelf: &mut S,
    sink: &mut K,
) -> Status
    requires { S.standing shelf.old ≡ None }
    ensures shelf { Leaves (S.standing shelf.new) (S.files shelf.old) (S.files shelf.new) (S.faults shelf.old) (S.faults shelf.new) }
    // Where no file is due, for refused words or a command without files, the shelf is exactly as it was.
    ensures untouched { (words_run (S.files shelf.old) (command_of words.now)).due ≡ no_file → shelf.new ≡ shelf.old }
    ensures sink { K.faults sink.old ≤ K.faults sink.new }
    // The status and the bytes are the outcome's, or a fault of the outside came in this call, or memory ran out. Accepted input is answered.
    ensures answer { Answers (words_run (S.files shelf.old) (command_of words.now)) (S.faults shelf.old) (S.faults shelf.new)
        (taken (K.written sink.old) (K.written sink.new) (K.faults sink.old) (K.faults sink.new)) result }
{
    match read_words(alloc, words) {
        Ok(command) => run_command(rt, alloc, &command, shelf, sink),
        Err(WordRefusal::At(fault)) => tell(&fault, sink),
        Err(WordRefusal::NoMemory) => Status::NoMemory,
    }
}
