//! Refused words, faults of the outside, and generated circuits.

use crate::reports::INVERTERS;
use crate::runs::{Case, RESISTOR, ROOM, expect_words, shelf_of, texts_of, words_of};
use cvc_base::{NoMemory, Texts};
use cvc_io::MemShelf;
use std::alloc::Global;
use std::process::Abort;
use std::sync::Wait;
use std::test::Fail;
use std::thread::Threads;

// A resistor hands a supply on.
const HANDS_ON: Case = Case {
    netlist: b"R1 VDD n1 100\n",
    models: RESISTOR,
    power: b"VDD power 1.2\n",
    options: &[b"nets"],
    status: 0,
    text: b"CVC report\ntop - devices 1 nets 2 declared 1\nnet VDD declared 1200 1200\nnet n1 1200 1200\nerrors 0\n",
};

// The words that check a case's files.
fn check_of(alloc: Global, case: &Case) -> Result<Texts, NoMemory> {
    words_of(alloc, b"check", &[b"n", b"m", b"p"], case.options)
}

// Refused words open no file: the shelf's first call would fail.
#[test]
fn refused_words(rt: HostRuntime) -> Result<(), Fail> {
    let alloc = rt.alloc();
    for (words, text) in [
        ([].as_slice(), b"refused words no-command\n".as_slice()),
        (
            &[b"lint".as_slice(), b"a"],
            b"refused words unknown-command\n",
        ),
        (&[b"--help".as_slice()], b"refused words unknown-command\n"),
        (
            &[b"check".as_slice(), b"a", b"b"],
            b"refused words missing-word\n",
        ),
        (
            &[b"check".as_slice(), b"a", b"b", b"c", b"workers=65"],
            b"refused words bad-number\n",
        ),
        (
            &[b"check".as_slice(), b"a", b"b", b"c", b"workers=01"],
            b"refused words bad-number\n",
        ),
        (
            &[b"check".as_slice(), b"a", b"b", b"c", b"nets", b"nets"],
            b"refused words twice-word\n",
        ),
        (
            &[b"serial".as_slice(), b"a", b"b", b"c", b"workers=2"],
            b"refused words unknown-word\n",
        ),
        (
            &[b"check".as_slice(), b"a", b"b", b"c", b"top="],
            b"refused words bad-name\n",
        ),
    ] {
        let mut shelf = MemShelf::new(alloc);
        shelf.fail_at(1)?;
        let words = texts_of(alloc, words)?;
        expect_words(&rt, alloc, &words, &mut shelf, ROOM, 2, text)?;
    }
    Ok(())
}

// A case opens and reads nine times: each file is opened, read, and read at its end. Each of the calls fails in turn.
fn expect_read_faults<R: Abort + Threads + Wait + Sync>(
    rt: &R,
    alloc: Global,
    case: &Case,
) -> Result<(), NoMemory> {
    let words = check_of(alloc, case)?;
    for call in 1..10u64 {
        let mut shelf = shelf_of(alloc, case)?;
        shelf.fail_at(call)?;
        expect_words(rt, alloc, &words, &mut shelf, ROOM, 7, b"")?;
    }
    let mut shelf = shelf_of(alloc, case)?;
    shelf.fail_at(10)?;
    expect_words(rt, alloc, &words, &mut shelf, ROOM, case.status, case.text)
}

// The sink has each room below the length of the report, and then just that room.
fn expect_write_faults<R: Abort + Threads + Wait + Sync>(
    rt: &R,
    alloc: Global,
    case: &Case,
) -> Result<(), NoMemory> {
    let words = check_of(alloc, case)?;
    for room in 0..case.text.len() {
        let mut shelf = shelf_of(alloc, case)?;
        let front = &case.text[..room];
        expect_words(rt, alloc, &words, &mut shelf, room, 8, front)?;
    }
    let mut shelf = shelf_of(alloc, case)?;
    let room = case.text.len();
    expect_words(rt, alloc, &words, &mut shelf, room, case.status, case.text)
}

#[test]
fn read_faults(rt: HostRuntime) -> Result<(), Fail> {
    let alloc = rt.alloc();
    expect_read_faults(&rt, alloc, &HANDS_ON)?;
    // A file that the shelf lacks.
    let words = check_of(alloc, &HANDS_ON)?;
    let mut shelf = MemShelf::new(alloc);
    shelf.add(b"n", HANDS_ON.netlist)?;
    expect_words(&rt, alloc, &words, &mut shelf, ROOM, 7, b"")?;
    Ok(())
}

#[test]
fn write_faults(rt: HostRuntime) -> Result<(), Fail> {
    expect_write_faults(&rt, rt.alloc(), &HANDS_ON)?;
    Ok(())
}

// Instances and globals, by two workers.
#[test]
fn faults_of_a_hierarchy_by_workers(rt: HostRuntime) -> Result<(), Fail> {
    let case = Case {
        options: &[b"nets", b"workers=2"],
        ..INVERTERS
    };
    expect_read_faults(&rt, rt.alloc(), &case)?;
    expect_write_faults(&rt, rt.alloc(), &case)?;
    Ok(())
}

// Generated circuits open no file.
#[test]
fn survey_of_generated_stages(rt: HostRuntime) -> Result<(), Fail> {
    let alloc = rt.alloc();
    for (words, text) in [
        (
            [b"gen".as_slice(), b"0", b"60000", b"workers=8"].as_slice(),
            b"CVC survey seed 0 size 60000\ndevices 108000 nets 72003 declared 3\n\
                overvoltage-gs 0\novervoltage-gd 0\novervoltage-ds 0\novervoltage-bs 0\novervoltage-bd 0\novervoltage-bg 0\n\
                forward-bias 0\nsource-bulk 0\npossible-leak 0\nsupply-path 0\nfloating-gate 12000\nsure-leak 0\nerrors 12000\n"
                .as_slice(),
        ),
        (
            &[b"gen".as_slice(), b"4", b"1"],
            b"CVC survey seed 4 size 1\ndevices 2 nets 5 declared 3\n\
                overvoltage-gs 0\novervoltage-gd 0\novervoltage-ds 0\novervoltage-bs 0\novervoltage-bd 0\novervoltage-bg 0\n\
                forward-bias 0\nsource-bulk 0\npossible-leak 0\nsupply-path 0\nfloating-gate 1\nsure-leak 0\nerrors 1\n",
        ),
    ] {
        let mut shelf = MemShelf::new(alloc);
        shelf.fail_at(1)?;
        let words = texts_of(alloc, words)?;
        expect_words(&rt, alloc, &words, &mut shelf, ROOM, 1, text)?;
    }
    Ok(())
}
