//! The command of the words.
ghost use Rattle.std.specs.Prelude.{◌≡◌, ◌≤◌, ◌<◌, IfOk, length, slice_index};
ghost use Rattle.cvc_words.specs.Command.{
  IsWithin,
  command_named,
  command_of,
  expect_of,
  gen_of,
  job,
  modes_of,
  prove_of,
  session_of,
  verify_of,
  word,
};
ghost use Rattle.cvc_words.specs.Options.{AreWorkers};
ghost use Rattle.cvc_words.specs.Views.{Gives, IsLimited, options_view};

use crate::number::number_within;
use crate::options::{Options, Takes, later_words, read_given, read_options};
use crate::{Command, Job, WordFault, WordRefusal};
use cvc_base::{NoMemory, Text, Texts};
use std::alloc::Global;

// What each command takes.
const CHECK_TAKES: Takes = Takes {
    must_have: 3,
    top: true,
    workers: true,
    nets: true,
};

const SERIAL_TAKES: Takes = Takes {
    must_have: 3,
    top: true,
    workers: false,
    nets: true,
};

const GEN_TAKES: Takes = Takes {
    must_have: 2,
    top: false,
    workers: true,
    nets: false,
};

const EXPECT_TAKES: Takes = Takes {
    must_have: 4,
    top: true,
    workers: false,
    nets: false,
};

const PROVE_TAKES: Takes = Takes {
    must_have: 3,
    top: true,
    workers: false,
    nets: false,
};

const VERIFY_TAKES: Takes = Takes {
    must_have: 5,
    top: true,
    workers: false,
    nets: true,
};

const MODES_TAKES: Takes = Takes {
    must_have: 3,
    top: true,
    workers: false,
    nets: false,
};

const SESSION_TAKES: Takes = Takes {
    must_have: 4,
    top: true,
    workers: false,
    nets: true,
};

// How many workers settle a circuit where no word says it.
const DEFAULT_WORKERS: u32 = 4;

// The most stages of a generated netlist.
const MOST_STAGES: u64 = 200_000;

// The name of the file at this place.
fn file(alloc: Global, words: &[Text], place: usize) -> Result<Text, NoMemory>
    requires { place < length words.now }
    ensures { IfOk result (λ name. name ≡ word place words.now) }
{
    Text::of(alloc, words[place].bytes())
}

// The name of the top, if an option gives one.
fn top(alloc: Global, options: Options) -> Result<Option<Text>, NoMemory>
    ensures { IfOk result (λ name. name ≡ (options_view options.entry).top) }
{
    match options.top {
        Some(name) => Ok(Some(Text::of(alloc, name)?)),
        None => Ok(None),
    }
}

// The job of three files.
fn job(alloc: Global, words: &[Text], options: Options) -> Result<Job, NoMemory>
    requires files { 3 ≤ length words.now }
    requires limited { IsLimited options }
    ensures job { IfOk result (λ made. made ≡ job words.now (options_view options.entry)) }
    ensures limited { IfOk result (λ made. AreWorkers made.workers) }
{
    Ok(Job {
        netlist: file(alloc, words, 0)?,
        models: file(alloc, words, 1)?,
        power: file(alloc, words, 2)?,
        top: top(alloc, options)?,
        workers: options.workers.unwrap_or(DEFAULT_WORKERS),
        nets: options.nets,
    })
}

// The generated netlist of a seed and a size.
fn read_gen(words: &[Text]) -> Result<Command, WordFault>
    ensures command { result ≡ gen_of words.now }
    ensures within { IfOk result IsWithin }
{
    let later = later_words(GEN_TAKES, words)?;
    let seed = number_within(0, u64::MAX, words[0].bytes())?;
    let size = number_within(1, MOST_STAGES, words[1].bytes())?;
    let options = read_options(GEN_TAKES, later)?;
    Ok(Command::Gen {
        seed,
        size: size as u32,
        workers: options.workers.unwrap_or(DEFAULT_WORKERS),
    })
}

fn read_expect(alloc: Global, words: &[Text]) -> Result<Command, WordRefusal>
    ensures command { Gives result (expect_of words.now) }
    ensures within { IfOk result IsWithin }
{
    let options = read_given(EXPECT_TAKES, words)?;
    Ok(Command::Expect {
        netlist: file(alloc, words, 0)?,
        models: file(alloc, words, 1)?,
        power: file(alloc, words, 2)?,
        expected: file(alloc, words, 3)?,
        top: top(alloc, options)?,
    })
}

fn read_prove(alloc: Global, words: &[Text]) -> Result<Command, WordRefusal>
    ensures command { Gives result (prove_of words.now) }
    ensures within { IfOk result IsWithin }
{
    let options = read_given(PROVE_TAKES, words)?;
    Ok(Command::Prove {
        netlist: file(alloc, words, 0)?,
        models: file(alloc, words, 1)?,
        power: file(alloc, words, 2)?,
        top: top(alloc, options)?,
    })
}

fn read_verify(alloc: Global, words: &[Text]) -> Result<Command, WordRefusal>
    ensures command { Gives result (verify_of words.now) }
    ensures within { IfOk result IsWithin }
{
    let options = read_given(VERIFY_TAKES, words)?;
    Ok(Command::Verify {
        netlist: file(alloc, words, 0)?,
        models: file(alloc, words, 1)?,
        power: file(alloc, words, 2)?,
        log: file(alloc, words, 3)?,
        report: file(alloc, words, 4)?,
        top: top(alloc, options)?,
        nets: options.nets,
    })
}

fn read_modes(alloc: Global, words: &[Text]) -> Result<Command, WordRefusal>
    ensures command { Gives result (modes_of words.now) }
    ensures within { IfOk result IsWithin }
{
    let options = read_given(MODES_TAKES, words)?;
    Ok(Command::Modes {
        netlist: file(alloc, words, 0)?,
        models: file(alloc, words, 1)?,
        list: file(alloc, words, 2)?,
        top: top(alloc, options)?,
    })
}

fn read_session(alloc: Global, words: &[Text]) -> Result<Command, WordRefusal>
    ensures command { Gives result (session_of words.now) }
    ensures within { IfOk result IsWithin }
{
    let options = read_given(SESSION_TAKES, words)?;
    Ok(Command::Session {
        netlist: file(alloc, words, 0)?,
        models: file(alloc, words, 1)?,
        power: file(alloc, words, 2)?,
        edits: file(alloc, words, 3)?,
        top: top(alloc, options)?,
        nets: options.nets,
    })
}

// The command of this name, with the words after it.
#[tactic(auto, unfolding(crate::specs::Command::command_named))]
fn read_command(alloc: Global, name: &[u8], words: &[Text]) -> Result<Command, WordRefusal>
    ensures command { Gives result (command_named name.now words.now) }
    ensures within { IfOk result IsWithin }
{
    if name == b"check".as_slice() {
        let options = read_given(CHECK_TAKES, words)?;
        return Ok(Command::Check(job(alloc, words, options)?));
    }
    if name == b"serial".as_slice() {
        let options = read_given(SERIAL_TAKES, words)?;
        return Ok(Command::Serial(job(alloc, words, options)?));
    }
    if name == b"gen".as_slice() {
        return Ok(read_gen(words)?);
    }
    if name == b"expect".as_slice() {
        return read_expect(alloc, words);
    }
    if name == b"prove".as_slice() {
        return read_prove(alloc, words);
    }
    if name == b"verify".as_slice() {
        return read_verify(alloc, words);
    }
    if name == b"modes".as_slice() {
        return read_modes(alloc, words);
    }
    if name == b"session".as_slice() {
        return read_session(alloc, words);
    }
    Err(WordFault::UnknownCommand.into())
}

/// The command that the words of the command line ask for, in the order in which they stand after the program's name. The first fault is told: of the
/// command, then of the words that it must have, then of each later word from the left. Linear in the words.
pub fn read_words(alloc: Global, words: &Texts) -> Result<Command, WordRefusal>
    ensures command { Gives result (command_of words.now) }
    // The numbers of a command are within their limits.
    ensures within { IfOk result IsWithin }
{
    match words.as_slice() {
        [] => Err(WordFault::NoCommand.into()),
        [name, later @ ..] => read_command(alloc, name.bytes(), later),
    }
}
