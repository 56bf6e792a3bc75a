//! Runs of the program over files in memory, as the cases beside it expect them.
ghost use Rattle.std.specs.Prelude.{◌≡◌, None, IfOk};
ghost use Rattle.cvc_io.specs.Memory.{standing_of};

use cvc_base::{NoMemory, Text, Texts};
use cvc_io::{MemShelf, MemSink};
use cvc_top::top;
use std::alloc::Global;
use std::process::Abort;
use std::sync::Wait;
use std::thread::Threads;

/// Room for every text here.
pub(super) const ROOM: usize = 4096;

pub(super) const HV: &[u8] =
    b"nhv nmos Vth=0.7\nphv pmos Vth=-0.7\nnlv nmos Vth=0.4 Vgs=1.32\ndp diode Vf=0.6\nR resistor\n";

pub(super) const RESISTOR: &[u8] = b"R resistor\n";

/// A check: its three files `n`, `m` and `p`, the words behind their names, and what it is to write and end with.
#[derive(Clone, Copy)]
pub(super) struct Case {
    pub netlist: &'static [u8],
    pub models: &'static [u8],
    pub power: &'static [u8],
    pub options: &'static [&'static [u8]],
    pub status: u8,
    pub text: &'static [u8],
}

/// A command, the names of its files, and the words behind them.
pub(super) fn words_of(
    alloc: Global,
    command: &[u8],
    names: &[&[u8]],
    options: &[&[u8]],
) -> Result<Texts, NoMemory> {
    let mut words = Texts::new(alloc);
    words.push(Text::of(alloc, command)?)?;
    for name in names {
        words.push(Text::of(alloc, name)?)?;
    }
    for option in options {
        words.push(Text::of(alloc, option)?)?;
    }
    Ok(words)
}

/// The words as they are.
pub(super) fn texts_of(alloc: Global, words: &[&[u8]]) -> Result<Texts, NoMemory> {
    let mut texts = Texts::new(alloc);
    for word in words {
        texts.push(Text::of(alloc, word)?)?;
    }
    Ok(texts)
}

/// A shelf with the files of a case.
pub(super) fn shelf_of(alloc: Global, case: &Case) -> Result<MemShelf, NoMemory>
    ensures { IfOk result (λ shelf. standing_of shelf ≡ None) }
{
    let mut shelf = MemShelf::new(alloc);
    shelf.add(b"n", case.netlist)?;
    shelf.add(b"m", case.models)?;
    shelf.add(b"p", case.power)?;
    Ok(shelf)
}

/// Runs `top` on the words, and looks at its status and bytes.
pub(super) fn expect_words<R: Abort + Threads + Wait + Sync>(
    rt: &R,
    alloc: Global,
    words: &Texts,
    shelf: &mut MemShelf,
    room: usize,
    status: u8,
    text: &[u8],
) -> Result<(), NoMemory>
    requires { standing_of shelf.old ≡ None }
{
    let mut sink = MemSink::new(alloc, room)?;
    let found = top(rt, alloc, words, shelf, &mut sink);
    assert_eq!(rt; found.code(), status);
    assert_eq!(rt; sink.bytes(), text);
    Ok(())
}

/// Runs `check` and then `serial` on a shelf with the files `n`, `m` and `p`.
pub(super) fn expect_files<R: Abort + Threads + Wait + Sync>(
    rt: &R,
    alloc: Global,
    shelf: &mut MemShelf,
    options: &[&[u8]],
    status: u8,
    text: &[u8],
) -> Result<(), NoMemory>
    requires { standing_of shelf.old ≡ None }
    ensures { standing_of shelf.new ≡ None }
{
    let mut sink = MemSink::new(alloc, ROOM)?;
    let names: [&[u8]; 3] = [b"n", b"m", b"p"];
    let words = words_of(alloc, b"check", &names, options)?;
    let found = top(rt, alloc, &words, shelf, &mut sink);
    assert_eq!(rt; found.code(), status);
    assert_eq!(rt; sink.bytes(), text);
    let mut sink = MemSink::new(alloc, ROOM)?;
    let words = words_of(alloc, b"serial", &names, options)?;
    let found = top(rt, alloc, &words, shelf, &mut sink);
    assert_eq!(rt; found.code(), status);
    assert_eq!(rt; sink.bytes(), text);
    Ok(())
}

/// Runs each case by `check` and by `serial`.
pub(super) fn expect_cases<R: Abort + Threads + Wait + Sync>(
    rt: &R,
    alloc: Global,
    cases: &[Case],
) -> Result<(), NoMemory> {
    for case in cases {
        let mut shelf = shelf_of(alloc, case)?;
        expect_files(rt, alloc, &mut shelf, case.options, case.status, case.text)?;
    }
    Ok(())
}

/// Runs a case whose netlist is this one, by `check` and by `serial`.
pub(super) fn expect_made<R: Abort + Threads + Wait + Sync>(
    rt: &R,
    alloc: Global,
    netlist: &[u8],
    case: &Case,
) -> Result<(), NoMemory> {
    let mut shelf = shelf_of(alloc, case)?;
    shelf.add(b"n", netlist)?;
    expect_files(rt, alloc, &mut shelf, case.options, case.status, case.text)
}
