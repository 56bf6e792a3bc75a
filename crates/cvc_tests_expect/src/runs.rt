//! The run of `expect`: what is written, byte for byte, and how it ends.

use cvc_base::{NoMemory, Text, Texts};
use cvc_io::{MemShelf, MemSink};
use cvc_top::top;
use std::alloc::Global;
use std::process::Abort;
use std::sync::Wait;
use std::test::Fail;
use std::thread::Threads;

// Room for every text here.
const ROOM: usize = 4096;

// Four files, what is written, and the status.
#[derive(Clone, Copy)]
struct Case {
    netlist: &'static [u8],
    models: &'static [u8],
    power: &'static [u8],
    expected: &'static [u8],
    status: u8,
    text: &'static [u8],
}

// A pass gate at 3.3 volts: its output has no low bound, and 2.6 volts as the high one.
const PASS_GATE: Case = Case {
    netlist: b"M1 out en src vss nhv\n",
    models: b"nhv nmos Vth=0.7\n",
    power: b"src power 3.3\nen power 3.3\nvss power 0\n",
    expected: b"",
    status: 0,
    text: b"CVC expectations\nmissed 0\n",
};

// A resistor hands a supply on.
const RESISTOR: Case = Case {
    netlist: b"R1 VDD n1 100\n",
    models: b"R resistor\n",
    power: b"VDD power 1.2\n",
    ..PASS_GATE
};

fn words_of(alloc: Global, words: &[&[u8]]) -> Result<Texts, NoMemory> {
    let mut texts = Texts::new(alloc);
    for word in words {
        texts.push(Text::of(alloc, word)?)?;
    }
    Ok(texts)
}

// Runs `expect` on the files of each case.
fn expect_cases<R: Abort + Threads + Wait + Sync>(
    rt: &R,
    alloc: Global,
    cases: &[Case],
) -> Result<(), NoMemory> {
    let words = words_of(alloc, &[b"expect", b"n", b"m", b"p", b"e"])?;
    for case in cases {
        let mut shelf = MemShelf::new(alloc);
        shelf.add(b"n", case.netlist)?;
        shelf.add(b"m", case.models)?;
        shelf.add(b"p", case.power)?;
        shelf.add(b"e", case.expected)?;
        let mut sink = MemSink::new(alloc, ROOM)?;
        let found = top(rt, alloc, &words, &mut shelf, &mut sink);
        assert_eq!(rt; found.code(), case.status);
        assert_eq!(rt; sink.bytes(), case.text);
    }
    Ok(())
}

#[test]
fn met_and_missed(rt: HostRuntime) -> Result<(), Fail> {
    let cases = [
        Case {
            expected: b"out ? 2.6\nen * *\n",
            ..PASS_GATE
        },
        Case {
            expected: b"out 0 2.5\n",
            status: 1,
            text: b"CVC expectations\nmissed out low expected 0 found ?\nmissed out high expected 2500 found 2600\nmissed 2\n",
            ..PASS_GATE
        },
        Case {
            expected: b"zz 0 0\n",
            status: 11,
            text: b"refused expected line 1 unknown-net\n",
            ..PASS_GATE
        },
        Case {
            expected: b"out 0\n",
            status: 11,
            text: b"refused expected line 1 bad-row\n",
            ..PASS_GATE
        },
        PASS_GATE,
    ];
    expect_cases(&rt, rt.alloc(), &cases)?;
    Ok(())
}

#[test]
fn each_kind_of_bound_on_each_side(rt: HostRuntime) -> Result<(), Fail> {
    let cases = [
        // Anything is met by what is known and by what isn't.
        Case {
            expected: b"out * *\nsrc * *\n",
            ..PASS_GATE
        },
        // What is to stay unknown: a low that does, and a high that doesn't.
        Case {
            expected: b"out ? ?\n",
            status: 1,
            text: b"CVC expectations\nmissed out high expected ? found 2600\nmissed 1\n",
            ..PASS_GATE
        },
        Case {
            expected: b"vss ? *\nsrc * ?\n",
            status: 1,
            text: b"CVC expectations\nmissed vss low expected ? found 0\nmissed src high expected ? found 3300\nmissed 2\n",
            ..PASS_GATE
        },
        // No row for an undeclared net is met where nothing reaches it.
        Case {
            power: b"src power 3.3\nen power 0\nvss power 0\n",
            expected: b"out ? ?\n",
            ..PASS_GATE
        },
        Case {
            power: b"src power 3.3\nen power 0\nvss power 0\n",
            expected: b"out 0 3.3\n",
            status: 1,
            text: b"CVC expectations\nmissed out low expected 0 found ?\nmissed out high expected 3300 found ?\nmissed 2\n",
            ..PASS_GATE
        },
        // A voltage, met and missed by a millivolt on either side.
        Case {
            expected: b"n1 1.2 1.2\nVDD 1.2 1200m\n",
            ..RESISTOR
        },
        Case {
            expected: b"n1 1.199 1.2\nVDD 1.2 1.201\n",
            status: 1,
            text: b"CVC expectations\nmissed n1 low expected 1199 found 1200\nmissed VDD high expected 1201 found 1200\nmissed 2\n",
            ..RESISTOR
        },
        Case {
            expected: b"n1 -1.2 *\n",
            status: 1,
            text: b"CVC expectations\nmissed n1 low expected -1200 found 1200\nmissed 1\n",
            ..RESISTOR
        },
    ];
    expect_cases(&rt, rt.alloc(), &cases)?;
    Ok(())
}

#[test]
fn names_of_nets(rt: HostRuntime) -> Result<(), Fail> {
    // A net of the main level that a port of an instance is on has the names of both.
    let instance = Case {
        netlist: b".SUBCKT c p\nR1 p q 1\n.ENDS\nX1 a c\n",
        models: b"R resistor\n",
        power: b"a power 1\n",
        ..PASS_GATE
    };
    let cases = [
        Case {
            expected: b"a 1 1\nX1/q 1 1\n",
            ..instance
        },
        Case {
            expected: b"X1/q 1 1\na 1 1\nX1/p 0 0\n",
            status: 11,
            text: b"refused expected line 3 same-net-twice\n",
            ..instance
        },
        // One name twice is refused when the file is read, so before a name that finds no net.
        Case {
            expected: b"zz * *\na * *\na * *\n",
            status: 11,
            text: b"refused expected line 3 twice-row\n",
            ..instance
        },
        // The first name in order, whatever is missed.
        Case {
            expected: b"a 0 0\n\nX1/p * *\nzz * *\n",
            status: 11,
            text: b"refused expected line 3 same-net-twice\n",
            ..instance
        },
        Case {
            expected: b"zz * *\na * *\nX1/p * *\n",
            status: 11,
            text: b"refused expected line 1 unknown-net\n",
            ..instance
        },
    ];
    expect_cases(&rt, rt.alloc(), &cases)?;
    Ok(())
}

// The files before the expected one are refused first, and binding before it too.
#[test]
fn earlier_files_first(rt: HostRuntime) -> Result<(), Fail> {
    let cases = [
        Case {
            netlist: b"M1 out\n",
            models: b"nhv\n",
            expected: b"out\n",
            status: 3,
            text: b"refused netlist line 1 short-card\n",
            ..PASS_GATE
        },
        Case {
            power: b"src power x\n",
            expected: b"out\n",
            status: 5,
            text: b"refused power line 1 bad-voltage\n",
            ..PASS_GATE
        },
        Case {
            power: b"zz power 0\n",
            expected: b"out\n",
            status: 6,
            text: b"refused power line 1 unknown-net\n",
            ..PASS_GATE
        },
        Case {
            expected: b"out * 1.0005\n",
            status: 11,
            text: b"refused expected line 1 bad-voltage\n",
            ..PASS_GATE
        },
        Case {
            expected: b"out \x01\n",
            status: 11,
            text: b"refused expected line 1 bad-byte\n",
            ..PASS_GATE
        },
    ];
    expect_cases(&rt, rt.alloc(), &cases)?;
    Ok(())
}

// How `expect` ends without its last file, and what is written.
fn without_expected<R: Abort + Threads + Wait + Sync>(
    rt: &R,
    alloc: Global,
    power: &[u8],
    status: u8,
    text: &[u8],
) -> Result<(), NoMemory> {
    let words = words_of(alloc, &[b"expect", b"n", b"m", b"p", b"e"])?;
    let mut shelf = MemShelf::new(alloc);
    shelf.add(b"n", RESISTOR.netlist)?;
    shelf.add(b"m", RESISTOR.models)?;
    shelf.add(b"p", power)?;
    let mut sink = MemSink::new(alloc, ROOM)?;
    let found = top(rt, alloc, &words, &mut shelf, &mut sink);
    assert_eq!(rt; found.code(), status);
    assert_eq!(rt; sink.bytes(), text);
    Ok(())
}

// A file that can't be opened: nothing is written. Where binding is refused, it isn't opened.
#[test]
fn no_expected_file(rt: HostRuntime) -> Result<(), Fail> {
    without_expected(&rt, rt.alloc(), RESISTOR.power, 7, b"")?;
    without_expected(
        &rt,
        rt.alloc(),
        b"zz power 0\n",
        6,
        b"refused power line 1 unknown-net\n",
    )?;
    Ok(())
}
