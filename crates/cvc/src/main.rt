//! The program `cvc`: a voltage-aware check of a transistor netlist. `cvc_top::top` does all of it; this file only hands over the words, the
//! files and standard output.
#![tactic(auto)]

ghost use Rattle.std.specs.Iterator.{IsFinite};

use cvc_base::{NoMemory, Text, Texts};
use cvc_io::{FileShelf, StdSink};
use cvc_top::{Status, top};
use std::alloc::Global;
use std::env;
use std::io::ErrorKind;
use std::process::ExitCode;

// The status where the words behind the program's name are no texts.
const NO_TEXT: u8 = 14;

fn words_of<I: Iterator<Item = String>>(alloc: Global, args: I) -> Result<Texts, NoMemory>
    requires can { I.can_next args }
    requires ends { IsFinite (I.remaining args) }
{
    let mut words = Texts::new(alloc);
    for word in args {
        words.push(Text::of(alloc, word.as_bytes())?)?;
    }
    Ok(words)
}

fn main(rt: HostRuntime) -> ExitCode {
    let mut args = match env::args(&rt) {
        Ok(args) => args,
        Err(error) if error.kind() == ErrorKind::OutOfMemory => {
            return ExitCode::from(Status::NoMemory.code());
        }
        Err(_) => return ExitCode::from(NO_TEXT),
    };
    let _program = args.next();
    let Ok(words) = words_of(rt.alloc(), args) else {
        return ExitCode::from(Status::NoMemory.code());
    };
    let mut shelf = FileShelf::new(&rt);
    let mut sink = StdSink::new(&rt);
    let status = top(&rt, rt.alloc(), &words, &mut shelf, &mut sink);
    ExitCode::from(status.code())
}
