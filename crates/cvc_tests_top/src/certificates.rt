//! The runs of `prove` and `verify`: what is written, byte for byte, and how they end.
ghost use Rattle.std.specs.Prelude.{◌≡◌, None, IfOk};
ghost use Rattle.cvc_io.specs.Memory.{standing_of};

use crate::reports::{INVERTERS, RING};
use crate::runs::{Case, ROOM, expect_words, shelf_of, words_of};
use cvc_base::NoMemory;
use cvc_gen::netlist_of;
use cvc_io::{MemShelf, MemSink};
use cvc_top::top;
use std::alloc::{AllocError, Global};
use std::process::Abort;
use std::sync::Wait;
use std::test::Fail;
use std::thread::Threads;

/// Room for the log and the report of a large circuit.
const LARGE: usize = 16_777_216;

/// The names of the files of `verify`.
const NAMES: &[&[u8]] = &[b"n", b"m", b"p", b"l", b"r"];

/// The report of a resistor that hands a supply on.
const REPORT: &[u8] =
    b"CVC report\ntop - devices 1 nets 2 declared 1\nnet VDD declared 1200 1200\nnet n1 1200 1200\nerrors 0\n";

/// Its files.
const RESISTOR: Case = Case {
    netlist: b"R1 VDD n1 100\n",
    models: b"R resistor\n",
    power: b"VDD power 1.2\n",
    options: &[b"nets"],
    status: 0,
    text: REPORT,
};

/// A log, a report, what is written, and the status.
#[derive(Clone, Copy)]
struct Claim {
    log: &'static [u8],
    report: &'static [u8],
    status: u8,
    text: &'static [u8],
}

/// What derives the resistor's report.
const VERIFIED: Claim = Claim {
    log: b"0 0 1200\n0 1 1200\n",
    report: REPORT,
    status: 0,
    text: b"verified\n",
};

/// The lines of a log of the ring: its two resistors hand the supply on, and then the first pass gate does.
const RING_LOG: [&[u8]; 6] = [
    b"3 0 0\n",
    b"3 1 3300\n",
    b"4 0 0\n",
    b"4 1 3300\n",
    b"0 0 0\n",
    b"0 1 2600\n",
];

/// Looks at the verdict on a log and a report of the case's files.
fn expect_verdict<R: Abort + Threads + Wait + Sync>(
    rt: &R,
    alloc: Global,
    case: &Case,
    log: &[u8],
    report: &[u8],
    status: u8,
    text: &[u8],
) -> Result<(), NoMemory> {
    let words = words_of(alloc, b"verify", NAMES, case.options)?;
    let mut shelf = shelf_of(alloc, case)?;
    shelf.add(b"l", log)?;
    shelf.add(b"r", report)?;
    expect_words(rt, alloc, &words, &mut shelf, ROOM, status, text)
}

/// Verifies each claim on the files of the case.
fn expect_claims<R: Abort + Threads + Wait + Sync>(
    rt: &R,
    alloc: Global,
    case: &Case,
    claims: &[Claim],
) -> Result<(), NoMemory> {
    for claim in claims {
        expect_verdict(
            rt,
            alloc,
            case,
            claim.log,
            claim.report,
            claim.status,
            claim.text,
        )?;
    }
    Ok(())
}

/// The log that `prove` writes for the files of the case.
fn proved<R: Threads + Wait + Sync>(
    rt: &R,
    alloc: Global,
    case: &Case,
) -> Result<MemSink, NoMemory> {
    let words = words_of(alloc, b"prove", &[b"n", b"m", b"p"], &[])?;
    let mut shelf = shelf_of(alloc, case)?;
    let mut sink = MemSink::new(alloc, ROOM)?;
    let _status = top(rt, alloc, &words, &mut shelf, &mut sink);
    Ok(sink)
}

/// The lines one behind another.
fn joined(alloc: Global, lines: &[&[u8]]) -> Result<Vec<u8>, AllocError> {
    let mut text = Vec::new(alloc);
    for line in lines {
        text.extend_from_slice(line)?;
    }
    Ok(text)
}

#[test]
fn verdicts_on_a_resistor(rt: HostRuntime) -> Result<(), Fail> {
    let claims = [
        VERIFIED,
        // The order of lines that don't need one another is free, and so are lines that widen nothing.
        Claim {
            log: b"0 1 1200\n0 0 1200\n0 1 1200\n",
            ..VERIFIED
        },
        // Not complete.
        Claim {
            log: b"0 0 1200\n",
            status: 1,
            text: b"rejected device R1\n",
            ..VERIFIED
        },
        Claim {
            log: b"",
            status: 1,
            text: b"rejected device R1\n",
            ..VERIFIED
        },
        // Not justified: another value, a declared net, and a device that isn't there.
        Claim {
            log: b"0 0 1100\n",
            status: 1,
            text: b"rejected line 1\n",
            ..VERIFIED
        },
        Claim {
            log: b"0 0 1200\n0 2 1200\n",
            status: 1,
            text: b"rejected line 2\n",
            ..VERIFIED
        },
        Claim {
            log: b"0 0 1200\n0 1 1200\n4294967295 3 -1000000\n",
            status: 1,
            text: b"rejected line 3\n",
            ..VERIFIED
        },
        // A line goes before a device, and a device before the report.
        Claim {
            log: b"1 0 1200\n",
            report: b"",
            status: 1,
            text: b"rejected line 1\n",
        },
        Claim {
            log: b"0 1 1200\n",
            report: b"",
            status: 1,
            text: b"rejected device R1\n",
        },
        // Another report.
        Claim {
            report: b"CVC report\ntop - devices 1 nets 2 declared 1\nnet VDD declared 1200 1200\nnet n1 1200 1200\nerrors 1\n",
            status: 1,
            text: b"rejected byte 96\n",
            ..VERIFIED
        },
        Claim {
            report: b"CVC report\ntop - devices 1 nets 2 declared 1\nerrors 0\n",
            status: 1,
            text: b"rejected byte 45\n",
            ..VERIFIED
        },
    ];
    expect_claims(&rt, rt.alloc(), &RESISTOR, &claims)?;
    Ok(())
}

#[test]
fn logs_that_are_refused(rt: HostRuntime) -> Result<(), Fail> {
    let first: [&[u8]; 14] = [
        b"0 0 01200\n",
        b"0 0 1200",
        b"0 0 1200\r\n",
        b"0 0 -0\n",
        b"0 0 +1\n",
        b"0 0 1000001\n",
        b"0 0 -1000001\n",
        b"0 4 1200\n",
        b"4294967296 0 1200\n",
        b"0  0 1200\n",
        b" 0 0 1200\n",
        b"0 0 1200 \n",
        b"0 0\n",
        b"\n",
    ];
    let alloc = rt.alloc();
    for log in first {
        expect_verdict(
            &rt,
            alloc,
            &RESISTOR,
            log,
            b"",
            10,
            b"refused log line 1 bad-row\n",
        )?;
    }
    // The first of two, behind a line that isn't justified.
    let log = b"9 0 1\n0 0 x\n0 0 y\n";
    expect_verdict(
        &rt,
        alloc,
        &RESISTOR,
        log,
        b"",
        10,
        b"refused log line 2 bad-row\n",
    )?;
    Ok(())
}

// What `prove` writes is verified with the report of a check.
#[test]
fn proved_logs(rt: HostRuntime) -> Result<(), Fail> {
    let alloc = rt.alloc();
    for case in [RESISTOR, INVERTERS, RING] {
        let log = proved(&rt, alloc, &case)?;
        expect_verdict(&rt, alloc, &case, log.bytes(), case.text, 0, b"verified\n")?;
    }
    Ok(())
}

/// What a command over these files writes, for a shelf that holds them.
fn written<R: Abort + Threads + Wait + Sync>(
    rt: &R,
    alloc: Global,
    command: &[u8],
    shelf: &mut MemShelf,
) -> Result<MemSink, NoMemory>
    requires { standing_of shelf.old ≡ None }
    ensures { standing_of shelf.new ≡ None }
{
    let words = words_of(alloc, command, &[b"n", b"m", b"p"], &[])?;
    let mut sink = MemSink::new(alloc, LARGE)?;
    let status = top(rt, alloc, &words, shelf, &mut sink);
    assert!(rt; status.code() < 2);
    Ok(sink)
}

// A circuit of many stages: its log is verified with its report, and not with a report that is cut.
#[test]
fn generated_circuit(rt: HostRuntime) -> Result<(), Fail> {
    let alloc = rt.alloc();
    let made = netlist_of(alloc, 0, 60_000)?;
    let mut shelf = MemShelf::new(alloc);
    shelf.add(b"n", made.netlist.bytes())?;
    shelf.add(b"m", made.models.bytes())?;
    shelf.add(b"p", made.power.bytes())?;
    let log = written(&rt, alloc, b"prove", &mut shelf)?;
    let report = written(&rt, alloc, b"check", &mut shelf)?;
    shelf.add(b"l", log.bytes())?;
    shelf.add(b"r", report.bytes())?;
    let words = words_of(alloc, b"verify", NAMES, &[])?;
    expect_words(&rt, alloc, &words, &mut shelf, ROOM, 0, b"verified\n")?;
    Ok(())
}

// Where nothing is to be derived, the log is empty; a finding doesn't matter.
#[test]
fn empty_log(rt: HostRuntime) -> Result<(), Fail> {
    let alloc = rt.alloc();
    let case = Case {
        netlist: b"R1 VDD VSS 100\n",
        models: b"R resistor\n",
        power: b"VDD power 1.2\nVSS power 0\n",
        options: &[],
        status: 1,
        text: b"CVC report\ntop - devices 1 nets 2 declared 2\nsupply-path R1 R ends 1200 1200 0 0\nerrors 1\n",
    };
    let words = words_of(alloc, b"prove", &[b"n", b"m", b"p"], &[])?;
    let mut shelf = shelf_of(alloc, &case)?;
    expect_words(&rt, alloc, &words, &mut shelf, ROOM, 0, b"")?;
    expect_verdict(&rt, alloc, &case, b"", case.text, 0, b"verified\n")?;
    Ok(())
}

// The verdict on the ring's log with a line left out, doubled, put one place forward and put in front.
#[test]
fn ring_with_a_line_out_of_place(rt: HostRuntime) -> Result<(), Fail> {
    let verified: &[u8] = b"verified\n";
    let verdicts: [[&[u8]; 4]; 6] = [
        [b"rejected line 4\n", verified, verified, verified],
        [b"rejected line 5\n", verified, verified, verified],
        [b"rejected device M2\n", verified, verified, verified],
        [b"rejected line 4\n", verified, verified, verified],
        [
            b"rejected device M1\n",
            verified,
            b"rejected line 4\n",
            b"rejected line 1\n",
        ],
        [
            b"rejected device M1\n",
            verified,
            verified,
            b"rejected line 1\n",
        ],
    ];
    let alloc = rt.alloc();
    let whole = joined(alloc, &RING_LOG)?;
    expect_verdict(&rt, alloc, &RING, whole.as_slice(), RING.text, 0, verified)?;
    for (k, wanted) in verdicts.iter().enumerate() {
        let (before, line, behind) = (&RING_LOG[..k], RING_LOG[k], &RING_LOG[k + 1..]);
        let last = k.saturating_sub(1);
        let logs: [&[&[&[u8]]]; 4] = [
            &[before, behind],
            &[before, &[line, line], behind],
            &[&RING_LOG[..last], &[line], &RING_LOG[last..k], behind],
            &[&[line], before, behind],
        ];
        for (i, parts) in logs.iter().enumerate() {
            let mut log = Vec::new(alloc);
            for part in parts.iter() {
                log.extend_from_slice(joined(alloc, part)?.as_slice())?;
            }
            let status = if wanted[i] == verified { 0 } else { 1 };
            expect_verdict(
                &rt,
                alloc,
                &RING,
                log.as_slice(),
                RING.text,
                status,
                wanted[i],
            )?;
        }
    }
    Ok(())
}

// The report cut at each byte, and one byte longer: the end differs from every byte.
#[test]
fn report_of_another_length(rt: HostRuntime) -> Result<(), Fail> {
    let alloc = rt.alloc();
    for end in 0..REPORT.len() {
        let text = format!(in alloc; "rejected byte {end}\n")?;
        expect_verdict(
            &rt,
            alloc,
            &RESISTOR,
            VERIFIED.log,
            &REPORT[..end],
            1,
            text.as_bytes(),
        )?;
    }
    let longer = joined(alloc, &[REPORT, b"\n"])?;
    expect_verdict(
        &rt,
        alloc,
        &RESISTOR,
        VERIFIED.log,
        longer.as_slice(),
        1,
        b"rejected byte 98\n",
    )?;
    Ok(())
}

/// A shelf with the files of the case, and a log or none.
fn shelf_with_log(alloc: Global, case: &Case, log: Option<&[u8]>) -> Result<MemShelf, NoMemory>
    ensures { IfOk result (λ shelf. standing_of shelf ≡ None) }
{
    let mut shelf = shelf_of(alloc, case)?;
    if let Some(bytes) = log {
        shelf.add(b"l", bytes)?;
    }
    Ok(shelf)
}

// The files are read in order, and none behind one that is refused. No report is there.
#[test]
fn order_of_files(rt: HostRuntime) -> Result<(), Fail> {
    let alloc = rt.alloc();
    let unbound = Case {
        models: b"",
        ..RESISTOR
    };
    let unread = Case {
        netlist: b"R1 VDD\n",
        ..RESISTOR
    };
    let cases: [(&Case, Option<&[u8]>, u8, &[u8]); 5] = [
        (&unread, None, 3, b"refused netlist line 1 short-card\n"),
        (&unbound, None, 6, b"refused netlist line 1 no-model\n"),
        (&RESISTOR, None, 7, b""),
        (
            &RESISTOR,
            Some(b"0 0 x\n"),
            10,
            b"refused log line 1 bad-row\n",
        ),
        (&RESISTOR, Some(VERIFIED.log), 7, b""),
    ];
    let words = words_of(alloc, b"verify", NAMES, &[])?;
    for (case, log, status, text) in cases {
        let mut shelf = shelf_with_log(alloc, case, log)?;
        expect_words(&rt, alloc, &words, &mut shelf, ROOM, status, text)?;
    }
    let words = words_of(alloc, b"prove", &[b"n", b"m", b"p"], &[])?;
    for (case, status, text) in [
        (
            &unread,
            3,
            b"refused netlist line 1 short-card\n".as_slice(),
        ),
        (&unbound, 6, b"refused netlist line 1 no-model\n"),
    ] {
        let mut shelf = shelf_of(alloc, case)?;
        expect_words(&rt, alloc, &words, &mut shelf, ROOM, status, text)?;
    }
    Ok(())
}
