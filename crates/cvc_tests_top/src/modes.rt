//! Power modes: one design under the power files of a list, through `top`.
ghost use Rattle.std.specs.Prelude.{◌≡◌, None, IfOk};
ghost use Rattle.cvc_io.specs.Memory.{standing_of};

use crate::runs::{RESISTOR, ROOM, expect_words, texts_of, words_of};
use cvc_base::NoMemory;
use cvc_io::{MemShelf, MemSink};
use cvc_top::top;
use std::alloc::Global;
use std::process::Abort;
use std::sync::Wait;
use std::test::Fail;
use std::thread::Threads;

/// A resistor between two supplies.
const SHORT: &[u8] = b"R1 VDD VSS 100\n";

const ON: &[u8] = b"VDD power 1.2\nVSS power 0\n";

const OFF: &[u8] = b"VDD power 0\nVSS power 0\n";

/// Modes `a` and `b`: the power file of the second, the list, and what is to be written and answered.
#[derive(Clone, Copy)]
struct Case {
    list: &'static [u8],
    power: &'static [u8],
    status: u8,
    text: &'static [u8],
}

const TWO_MODES: Case = Case {
    list: b"a pa\nb pb\n",
    power: OFF,
    status: 1,
    text: b"CVC modes 2\nmode a\nCVC report\ntop - devices 1 nets 2 declared 2\nsupply-path R1 R ends 1200 1200 0 0\nerrors 1\nmode b\nCVC report\ntop - devices 1 nets 2 declared 2\nerrors 0\ntotal 1\n",
};

/// A shelf with the design, and the power files `pa` and `pb` of two modes.
fn shelf_of(alloc: Global, case: &Case) -> Result<MemShelf, NoMemory>
    ensures { IfOk result (λ shelf. standing_of shelf ≡ None) }
{
    let mut shelf = MemShelf::new(alloc);
    shelf.add(b"n", SHORT)?;
    shelf.add(b"m", RESISTOR)?;
    shelf.add(b"pa", ON)?;
    shelf.add(b"pb", case.power)?;
    shelf.add(b"l", case.list)?;
    Ok(shelf)
}

fn expect_case<R: Abort + Threads + Wait + Sync>(
    rt: &R,
    alloc: Global,
    case: &Case,
) -> Result<(), NoMemory> {
    let mut shelf = shelf_of(alloc, case)?;
    let words = texts_of(alloc, &[b"modes", b"n", b"m", b"l"])?;
    expect_words(rt, alloc, &words, &mut shelf, ROOM, case.status, case.text)
}

#[test]
fn two_modes_of_one_design(rt: HostRuntime) -> Result<(), Fail> {
    expect_case(&rt, rt.alloc(), &TWO_MODES)?;
    Ok(())
}

#[test]
fn no_modes(rt: HostRuntime) -> Result<(), Fail> {
    let empty = Case {
        list: b"# none yet\n",
        status: 0,
        text: b"CVC modes 0\ntotal 0\n",
        ..TWO_MODES
    };
    expect_case(&rt, rt.alloc(), &empty)?;
    Ok(())
}

#[test]
fn refused_lists(rt: HostRuntime) -> Result<(), Fail> {
    let cases = [
        Case {
            list: b"a pa\na pb\n",
            status: 12,
            text: b"refused modes line 2 twice-row\n",
            ..TWO_MODES
        },
        Case {
            list: b"a pa\nb\n",
            status: 12,
            text: b"refused modes line 2 bad-row\n",
            ..TWO_MODES
        },
        Case {
            list: b"a missing\nb pb pb\n",
            status: 12,
            text: b"refused modes line 2 bad-row\n",
            ..TWO_MODES
        },
    ];
    for case in &cases {
        expect_case(&rt, rt.alloc(), case)?;
    }
    Ok(())
}

#[test]
fn refused_modes(rt: HostRuntime) -> Result<(), Fail> {
    let cases = [
        Case {
            power: b"VDD power x\n",
            status: 5,
            text: b"refused mode b power line 1 bad-voltage\n",
            ..TWO_MODES
        },
        // all power files come before all bindings, each in the order of the list
        Case {
            list: b"low pb\nb pb\na pa\n",
            power: b"# supplies\nVXX power 1\n",
            status: 6,
            text: b"refused mode low power line 2 unknown-net\n",
        },
    ];
    for case in &cases {
        expect_case(&rt, rt.alloc(), case)?;
    }
    Ok(())
}

#[test]
fn binding_is_refused_at_a_netlist_line(rt: HostRuntime) -> Result<(), Fail> {
    let alloc = rt.alloc();
    let mut shelf = shelf_of(alloc, &TWO_MODES)?;
    shelf.add(b"m", b"C capacitor\n")?;
    let words = texts_of(alloc, &[b"modes", b"n", b"m", b"l"])?;
    let line = b"refused mode a netlist line 1 no-model\n";
    expect_words(&rt, alloc, &words, &mut shelf, ROOM, 6, line)?;
    Ok(())
}

/// A list of modes, one for each of these letters, all of the power file `pa`.
fn list_of(alloc: Global, letters: &[u8]) -> Result<Vec<u8>, NoMemory> {
    let mut list = Vec::new(alloc);
    for letter in letters {
        list.push(*letter)?;
        list.extend_from_slice(b" pa\n")?;
    }
    Ok(list)
}

#[test]
fn sixteen_modes_and_seventeen(rt: HostRuntime) -> Result<(), Fail> {
    let alloc = rt.alloc();
    let words = texts_of(alloc, &[b"modes", b"n", b"m", b"l"])?;
    let mut shelf = shelf_of(alloc, &TWO_MODES)?;
    shelf.add(b"l", list_of(alloc, b"abcdefghijklmnop")?.as_slice())?;
    let mut sink = MemSink::new(alloc, ROOM)?;
    let status = top(&rt, alloc, &words, &mut shelf, &mut sink);
    assert_eq!(rt; status.code(), 1);
    assert!(rt;
        sink.bytes()
            .starts_with(b"CVC modes 16\nmode a\nCVC report\n")
    );
    assert!(rt; sink.bytes().ends_with(b"errors 1\ntotal 16\n"));
    let mut shelf = shelf_of(alloc, &TWO_MODES)?;
    shelf.add(b"l", list_of(alloc, b"abcdefghijklmnopq")?.as_slice())?;
    let line = b"refused modes line 17 too-many-modes\n";
    expect_words(&rt, alloc, &words, &mut shelf, ROOM, 12, line)?;
    Ok(())
}

/// Behind the text so far, the name of a mode and what `check` writes under its power file, which has the same name.
fn put_mode<R: Abort + Threads + Wait + Sync>(
    rt: &R,
    alloc: Global,
    mode: &[u8],
    shelf: &mut MemShelf,
    text: &mut Vec<u8>,
) -> Result<(), NoMemory>
    requires { standing_of shelf.old ≡ None }
    ensures { standing_of shelf.new ≡ None }
{
    let words = words_of(alloc, b"check", &[b"n", b"m", mode], &[])?;
    let mut sink = MemSink::new(alloc, ROOM)?;
    let status = top(rt, alloc, &words, shelf, &mut sink);
    assert!(rt; status.code() < 2);
    text.extend_from_slice(b"mode ")?;
    text.extend_from_slice(mode)?;
    text.extend_from_slice(b"\n")?;
    text.extend_from_slice(sink.bytes())?;
    Ok(())
}

#[test]
fn each_report_is_that_of_a_check(rt: HostRuntime) -> Result<(), Fail> {
    let alloc = rt.alloc();
    let mut shelf = shelf_of(alloc, &TWO_MODES)?;
    shelf.add(b"on", ON)?;
    shelf.add(b"standby", b"VDD power 0.6\nVSS power 0\n")?;
    shelf.add(b"off", OFF)?;
    shelf.add(b"l", b"on on\nstandby standby\noff off\n")?;
    let mut wanted = Vec::new(alloc);
    wanted.extend_from_slice(b"CVC modes 3\n")?;
    put_mode(&rt, alloc, b"on", &mut shelf, &mut wanted)?;
    put_mode(&rt, alloc, b"standby", &mut shelf, &mut wanted)?;
    put_mode(&rt, alloc, b"off", &mut shelf, &mut wanted)?;
    wanted.extend_from_slice(b"total 2\n")?;
    let words = texts_of(alloc, &[b"modes", b"n", b"m", b"l"])?;
    expect_words(&rt, alloc, &words, &mut shelf, ROOM, 1, wanted.as_slice())?;
    Ok(())
}

#[test]
fn no_file_behind_a_refused_one_is_opened(rt: HostRuntime) -> Result<(), Fail> {
    let alloc = rt.alloc();
    let words = texts_of(alloc, &[b"modes", b"n", b"m", b"l"])?;
    // mode b's power file is missing, and mode a's is refused first
    let mut shelf = MemShelf::new(alloc);
    shelf.add(b"n", SHORT)?;
    shelf.add(b"m", RESISTOR)?;
    shelf.add(b"pa", b"VDD power\n")?;
    shelf.add(b"l", b"a pa\nb pb\n")?;
    let line = b"refused mode a power line 1 bad-row\n";
    expect_words(&rt, alloc, &words, &mut shelf, ROOM, 5, line)?;
    let mut shelf = MemShelf::new(alloc);
    shelf.add(b"n", SHORT)?;
    shelf.add(b"m", RESISTOR)?;
    shelf.add(b"pa", ON)?;
    shelf.add(b"l", b"a pa\nb pb\n")?;
    expect_words(&rt, alloc, &words, &mut shelf, ROOM, 7, b"")?;
    Ok(())
}
