//! Edit sessions: supplies that are edited and checked again, through `top`.
ghost use Rattle.std.specs.Prelude.{◌≡◌, None, IfOk};
ghost use Rattle.cvc_io.specs.Memory.{standing_of};

use crate::runs::{RESISTOR, ROOM, expect_words, texts_of};
use cvc_base::NoMemory;
use cvc_io::MemShelf;
use std::alloc::Global;
use std::process::Abort;
use std::sync::Wait;
use std::test::Fail;
use std::thread::Threads;

/// A session with the files `n`, `m`, `p` and `e`, with lines of nets or without, and what it is to write and end with.
#[derive(Clone, Copy)]
struct Case {
    netlist: &'static [u8],
    models: &'static [u8],
    power: &'static [u8],
    edits: &'static [u8],
    nets: bool,
    status: u8,
    text: &'static [u8],
}

/// A resistor on one supply.
const ONE: Case = Case {
    netlist: b"R1 VDD n1 1k\n",
    models: RESISTOR,
    power: b"VDD power 1.2\n",
    edits: b"",
    nets: false,
    status: 0,
    text: b"CVC session\nCVC report\ntop - devices 1 nets 2 declared 1\nerrors 0\n",
};

fn shelf_of(alloc: Global, case: &Case) -> Result<MemShelf, NoMemory>
    ensures { IfOk result (λ shelf. standing_of shelf ≡ None) }
{
    let mut shelf = MemShelf::new(alloc);
    shelf.add(b"n", case.netlist)?;
    shelf.add(b"m", case.models)?;
    shelf.add(b"p", case.power)?;
    shelf.add(b"e", case.edits)?;
    Ok(shelf)
}

/// A shelf with these files, each a name and its bytes.
fn shelf_with(alloc: Global, files: &[(&[u8], &[u8])]) -> Result<MemShelf, NoMemory>
    ensures { IfOk result (λ shelf. standing_of shelf ≡ None) }
{
    let mut shelf = MemShelf::new(alloc);
    for (name, bytes) in files {
        shelf.add(name, bytes)?;
    }
    Ok(shelf)
}

fn expect_case<R: Abort + Threads + Wait + Sync>(
    rt: &R,
    alloc: Global,
    case: &Case,
) -> Result<(), NoMemory> {
    let mut shelf = shelf_of(alloc, case)?;
    let plain = texts_of(alloc, &[b"session", b"n", b"m", b"p", b"e"])?;
    let listed = texts_of(alloc, &[b"session", b"n", b"m", b"p", b"e", b"nets"])?;
    let words = if case.nets { &listed } else { &plain };
    expect_words(rt, alloc, words, &mut shelf, ROOM, case.status, case.text)
}

#[test]
fn edits_of_one_supply(rt: HostRuntime) -> Result<(), Fail> {
    let cases = [
        ONE,
        Case {
            edits: b"set n1 power 0\nrecheck\nunset n1\nrecheck\n",
            text: b"CVC session\nrecheck 1 errors 1\nrecheck 2 errors 0\nCVC report\ntop - devices 1 nets 2 declared 1\nerrors 0\n",
            ..ONE
        },
        Case {
            edits: b"set zz power 1\nrecheck\n",
            status: 6,
            text: b"CVC session\nrecheck 1 refused power line 2 unknown-net\nrefused power line 2 unknown-net\n",
            ..ONE
        },
        Case {
            edits: b"set VDD input 0 1.2\nrecheck\n",
            nets: true,
            text: b"CVC session\nrecheck 1 errors 0\nCVC report\ntop - devices 1 nets 2 declared 1\nnet VDD declared 0 1200\nnet n1 0 1200\nerrors 0\n",
            ..ONE
        },
        // The words are read without regard to case.
        Case {
            edits: b"SET n1 Power 0\nReCheck\nUNSET n1\n",
            text: b"CVC session\nrecheck 1 errors 1\nCVC report\ntop - devices 1 nets 2 declared 1\nerrors 0\n",
            ..ONE
        },
        // The last check is done though no row asks for it.
        Case {
            edits: b"set n1 power 0\n",
            status: 1,
            text: b"CVC session\nCVC report\ntop - devices 1 nets 2 declared 2\nsupply-path R1 R ends 1200 1200 0 0\nerrors 1\n",
            ..ONE
        },
        // A recheck that is refused doesn't end a session.
        Case {
            edits: b"set zz power 1\nrecheck\nunset zz\nrecheck\n",
            text: b"CVC session\nrecheck 1 refused power line 2 unknown-net\nrecheck 2 errors 0\nCVC report\ntop - devices 1 nets 2 declared 1\nerrors 0\n",
            ..ONE
        },
        // Rows are numbered by their places, also those that the session began with.
        Case {
            power: b"# supplies\n\nVDD power 1.2\nzz power 0\n",
            edits: b"recheck\nunset VDD\n",
            status: 6,
            text: b"CVC session\nrecheck 1 refused power line 2 unknown-net\nrefused power line 1 unknown-net\n",
            ..ONE
        },
        // Binding is met by rechecks alone.
        Case {
            models: b"C capacitor\n",
            status: 6,
            text: b"CVC session\nrefused netlist line 1 no-model\n",
            ..ONE
        },
    ];
    for case in &cases {
        expect_case(&rt, rt.alloc(), case)?;
    }
    Ok(())
}

#[test]
fn refused_files(rt: HostRuntime) -> Result<(), Fail> {
    let cases = [
        Case {
            edits: b"unset VSS\n",
            status: 13,
            text: b"refused edits line 1 not-there\n",
            ..ONE
        },
        Case {
            edits: b"unset VDD\nrecheck\nunset VDD\n",
            status: 13,
            text: b"refused edits line 3 not-there\n",
            ..ONE
        },
        Case {
            edits: b"recheck now\n",
            status: 13,
            text: b"refused edits line 1 bad-row\n",
            ..ONE
        },
        Case {
            edits: b"# leak?\nset n1 power x\n",
            status: 13,
            text: b"refused edits line 2 bad-voltage\n",
            ..ONE
        },
        Case {
            edits: b"set n1 input 1 0\n",
            status: 13,
            text: b"refused edits line 1 min-above-max\n",
            ..ONE
        },
        // A fault of the power file goes before one of the edits, and it before one of binding.
        Case {
            power: b"VDD power\n",
            edits: b"recheck now\n",
            status: 5,
            text: b"refused power line 1 bad-row\n",
            ..ONE
        },
        Case {
            power: b"zz power 1\n",
            edits: b"unset VSS\n",
            status: 13,
            text: b"refused edits line 1 not-there\n",
            ..ONE
        },
    ];
    for case in &cases {
        expect_case(&rt, rt.alloc(), case)?;
    }
    Ok(())
}

// The files are read in order, and none behind one that is refused: it isn't there.
#[test]
fn order_of_files(rt: HostRuntime) -> Result<(), Fail> {
    let alloc = rt.alloc();
    let cases: [(&[(&[u8], &[u8])], u8, &[u8]); 4] = [
        (
            &[(b"n", b"R1 VDD\n")],
            3,
            b"refused netlist line 1 short-card\n",
        ),
        (
            &[(b"n", ONE.netlist), (b"m", b"R\n")],
            4,
            b"refused models line 1 bad-row\n",
        ),
        (
            &[(b"n", ONE.netlist), (b"m", ONE.models), (b"p", b"VDD\n")],
            5,
            b"refused power line 1 bad-row\n",
        ),
        (
            &[(b"n", ONE.netlist), (b"m", ONE.models), (b"p", ONE.power)],
            7,
            b"",
        ),
    ];
    let words = texts_of(alloc, &[b"session", b"n", b"m", b"p", b"e"])?;
    for (files, status, text) in cases {
        let mut shelf = shelf_with(alloc, files)?;
        expect_words(&rt, alloc, &words, &mut shelf, ROOM, status, text)?;
    }
    Ok(())
}
