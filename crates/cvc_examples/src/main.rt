//! Compares stored outputs with what the program writes. Each argument is `FOLDER/FILE`, where `:OPTION` may follow: FILE keeps what a command writes
//! over the other files of FOLDER, and its name says which command.
//!
//! | FILE | the command |
//! |---|---|
//! | `report`, `report.MODE` | `check netlist.cdl models power nets`, with `power.MODE` for a mode |
//! | `told.expected` | `expect netlist.cdl models power expected` |
//! | `told.modes` | `modes netlist.cdl models modes` |
//! | `told.edits` | `session netlist.cdl models power edits nets` |
//! | `told.LOG` | `verify netlist.cdl models power LOG report nets` |
//!
//! Each stored report is verified too, with the log that `prove` writes over the same files.
#![tactic(auto)]

ghost use Rattle.std.specs.Prelude.{◌≡◌, None};
ghost use Rattle.cvc_io.specs.Memory.{standing_of};

use cvc_base::{NoMemory, Text, Texts};
use cvc_io::{FileShelf, MemShelf, MemSink, Shelf};
use cvc_run::{LoadFault, load_file};
use cvc_top::{Status, top};
use std::alloc::Global;
use std::env;
use std::process::ExitCode;
use std::rt::Files;
use std::sync::Wait;
use std::thread::Threads;

// Room for every output.
const ROOM: u16 = 16_384;

// A stored output.
#[derive(Drop)]
struct Stored<'a> {
    folder: &'a str,
    file: &'a str,
    option: Option<&'a str>,
}

impl<'a> Stored<'a> {
    // The stored output that an argument names.
    fn of(argument: &'a str) -> Option<Stored<'a>> {
        let (place, option) = match argument.split_once(':') {
            Some((place, option)) => (place, Some(option)),
            None => (argument, None),
        };
        let (folder, file) = place.split_once('/')?;
        Some(Stored {
            folder,
            file,
            option,
        })
    }

    // The name of a file of the folder.
    fn name_of(&self, alloc: Global, file: &str) -> Result<Text, NoMemory> {
        let folder = self.folder;
        let name = format!(in alloc; "{folder}/{file}")?;
        Text::of(alloc, name.as_bytes())
    }

    // The words of a command over the netlist, the models and further files of the folder.
    fn words_of(
        &self,
        alloc: Global,
        command: &str,
        files: &[&str],
        nets: bool,
    ) -> Result<Texts, NoMemory> {
        let mut words = Texts::new(alloc);
        words.push(Text::of(alloc, command.as_bytes())?)?;
        words.push(self.name_of(alloc, "netlist.cdl")?)?;
        words.push(self.name_of(alloc, "models")?)?;
        for file in files {
            words.push(self.name_of(alloc, file)?)?;
        }
        if nets {
            words.push(Text::of(alloc, b"nets")?)?;
        }
        if let Some(option) = self.option {
            words.push(Text::of(alloc, option.as_bytes())?)?;
        }
        Ok(words)
    }

    // The name of the power file of a stored report, without the folder; none where something else is stored.
    fn power_file(&self, alloc: Global) -> Result<Option<String>, NoMemory> {
        match self.file.strip_prefix("report") {
            Some(mode) => Ok(Some(format!(in alloc; "power{mode}")?)),
            None => Ok(None),
        }
    }

    // The words of the command that writes the output.
    fn words(&self, alloc: Global) -> Result<Texts, NoMemory> {
        if let Some(power) = self.power_file(alloc)? {
            return self.words_of(alloc, "check", &[power.as_str()], true);
        }
        match self.file.strip_prefix("told.").unwrap_or("") {
            "expected" => self.words_of(alloc, "expect", &["power", "expected"], false),
            "modes" => self.words_of(alloc, "modes", &["modes"], false),
            "edits" => self.words_of(alloc, "session", &["power", "edits"], true),
            log => self.words_of(alloc, "verify", &["power", log, "report"], true),
        }
    }

    // Whether the command writes what is stored.
    fn is_met<R: Files + Threads + Wait + Sync>(
        &self,
        rt: &R,
        alloc: Global,
    ) -> Result<bool, LoadFault> {
        let words = self.words(alloc)?;
        let mut shelf = FileShelf::new(rt);
        let mut sink = MemSink::new(alloc, usize::from(ROOM))?;
        let status = top(rt, alloc, &words, &mut shelf, &mut sink);
        if status != Status::Clean && status != Status::Errors {
            return Ok(false);
        }
        let name = self.name_of(alloc, self.file)?;
        let stored = load_file(alloc, &name, u64::from(ROOM), &mut shelf)?;
        Ok(stored.bytes() == sink.bytes())
    }

    // Puts a file of the folder on a shelf in memory.
    fn hold<S: Shelf>(
        &self,
        alloc: Global,
        file: &str,
        shelf: &mut S,
        held: &mut MemShelf,
    ) -> Result<(), LoadFault>
        requires shelf { S.standing shelf.old ≡ None }
        requires held { standing_of held.old ≡ None }
        ensures shelf { S.standing shelf.new ≡ None }
        ensures held { standing_of held.new ≡ None }
    {
        let name = self.name_of(alloc, file)?;
        let text = load_file(alloc, &name, u64::from(ROOM), shelf)?;
        held.add(name.bytes(), text.bytes())?;
        Ok(())
    }

    // Whether the stored report is verified with the log of `prove` over the same files.
    fn is_verified<R: Files + Threads + Wait + Sync>(
        &self,
        rt: &R,
        alloc: Global,
        power: &str,
    ) -> Result<bool, LoadFault> {
        let mut shelf = FileShelf::new(rt);
        let mut log = MemSink::new(alloc, usize::from(ROOM))?;
        let words = self.words_of(alloc, "prove", &[power], false)?;
        if top(rt, alloc, &words, &mut shelf, &mut log) != Status::Clean {
            return Ok(false);
        }
        let mut held = MemShelf::new(alloc);
        self.hold(alloc, "netlist.cdl", &mut shelf, &mut held)?;
        self.hold(alloc, "models", &mut shelf, &mut held)?;
        self.hold(alloc, power, &mut shelf, &mut held)?;
        self.hold(alloc, self.file, &mut shelf, &mut held)?;
        held.add(self.name_of(alloc, "proved")?.bytes(), log.bytes())?;
        let mut verdict = MemSink::new(alloc, usize::from(ROOM))?;
        let words = self.words_of(alloc, "verify", &[power, "proved", self.file], true)?;
        let status = top(rt, alloc, &words, &mut held, &mut verdict);
        Ok(status == Status::Clean && verdict.bytes() == b"verified\n".as_slice())
    }

    // What is found of it.
    fn judge<R: Files + Threads + Wait + Sync>(
        &self,
        rt: &R,
        alloc: Global,
    ) -> Result<&'static str, LoadFault> {
        if !self.is_met(rt, alloc)? {
            return Ok("not as stored");
        }
        match self.power_file(alloc)? {
            None => Ok("as stored"),
            Some(power) if self.is_verified(rt, alloc, power.as_str())? => Ok(
                "as stored, verified",
            ),
            Some(_) => Ok("as stored, not verified"),
        }
    }
}

// What is said of an argument.
fn verdict_of<R: Files + Threads + Wait + Sync>(
    rt: &R,
    alloc: Global,
    argument: &str,
) -> &'static str {
    let Some(stored) = Stored::of(argument) else {
        return "no stored output";
    };
    stored.judge(rt, alloc).unwrap_or("not read")
}

fn main(rt: HostRuntime) -> ExitCode {
    let Ok(mut arguments) = env::args(&rt) else {
        return ExitCode::FAILURE;
    };
    let _program = arguments.next();
    for argument in arguments {
        let verdict = verdict_of(&rt, rt.alloc(), &argument);
        if println!(rt; "{argument}: {verdict}").is_err() {
            return ExitCode::FAILURE;
        }
    }
    ExitCode::SUCCESS
}
