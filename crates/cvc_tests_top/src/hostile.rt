//! Netlists that are made to hurt.

use crate::limits::ACCEPTED;
use crate::made::{bad_byte_and_comments, chain_of_cells, joined, nested_cells, numbered_lines};
use crate::refusals::NO_FILES;
use crate::runs::{Case, ROOM, expect_made, expect_words, texts_of};
use cvc_io::MemShelf;
use std::alloc::{AllocError, Global};
use std::test::Fail;

// An ignored line of 1,025 lines of the file, the last of which has so many letters.
fn long_directive(alloc: Global, last: usize) -> Result<Vec<u8>, AllocError> {
    let letters = vec![in alloc; b'a'; 1024]?;
    let line = joined(alloc, &[b"+", &letters, b"\n"])?;
    let lines = numbered_lines(alloc, 0, 1023, &[&line])?;
    let end = vec![in alloc; b'a'; last]?;
    joined(alloc, &[b"*.PININFO\n", &lines, b"+", &end, b"\n"])
}

// A hundred thousand parameters, each but the first with the one before it as its value, and a device that asks for the last.
fn chain_of_params(alloc: Global, first: &[u8]) -> Result<Vec<u8>, AllocError> {
    let mut netlist = joined(alloc, &[b".PARAM p0=", first, b"\n"])?;
    for before in 0..99_999u32 {
        let line = format!(in alloc; ".PARAM p{}=p{before}\n", before + 1)?;
        netlist.extend_from_slice(line.as_bytes())?;
    }
    netlist.extend_from_slice(b"R1 a b 1 w=p99999\n")?;
    Ok(netlist)
}

// A supply that reaches its leaves through one hub.
fn star(alloc: Global, devices: u32) -> Result<Vec<u8>, AllocError> {
    let leaves = numbered_lines(alloc, 1, devices, &[b"R", b" hub n", b" 1\n"])?;
    joined(alloc, &[b"R0 src hub 1\n", &leaves])
}

#[test]
fn hostile_netlists(rt: HostRuntime) -> Result<(), Fail> {
    let alloc = rt.alloc();
    let cases = [
        (
            long_directive(alloc, 1024)?,
            Case {
                text: b"refused netlist line 1025 long-line\n",
                ..NO_FILES
            },
        ),
        (
            long_directive(alloc, 1015)?,
            Case {
                text: b"CVC report\ntop - devices 0 nets 0 declared 0\nerrors 0\n",
                ..ACCEPTED
            },
        ),
        (
            star(alloc, 400_000)?,
            Case {
                power: b"src power 1.2\n",
                text: b"CVC report\ntop - devices 400000 nets 400001 declared 1\nerrors 0\n",
                ..ACCEPTED
            },
        ),
        (
            chain_of_params(alloc, b"1")?,
            Case {
                text: b"CVC report\ntop - devices 1 nets 2 declared 0\nerrors 0\n",
                ..ACCEPTED
            },
        ),
        (
            chain_of_params(alloc, b"p99999")?,
            Case {
                text: b"refused netlist line 100001 param-loop\n",
                ..NO_FILES
            },
        ),
        (
            nested_cells(alloc, 100_000)?,
            Case {
                options: &[b"top=c99999"],
                text: b"refused netlist line 299807 too-deep\n",
                ..NO_FILES
            },
        ),
    ];
    for (netlist, case) in &cases {
        expect_made(&rt, alloc, netlist, case)?;
    }
    Ok(())
}

// Whole names of these devices would take 12 gigabytes.
#[test]
fn long_names_of_many_devices(rt: HostRuntime) -> Result<(), Fail> {
    let alloc = rt.alloc();
    let cards = numbered_lines(alloc, 0, 200_000, &[b"R", b" p VSS 1\n"])?;
    let letters = vec![in alloc; b'a'; 999]?;
    let instance = joined(alloc, &[b"X", &letters])?;
    let netlist = chain_of_cells(alloc, 61, &cards, &instance)?;
    let case = Case {
        options: &[b"top=c60"],
        text: b"CVC report\ntop c60 devices 200000 nets 2 declared 0\nerrors 0\n",
        ..ACCEPTED
    };
    expect_made(&rt, alloc, &netlist, &case)?;
    Ok(())
}

// The second piece of the netlist, which is call 3 of the shelf, can't be read. It is never asked for.
#[test]
fn fault_of_the_first_piece(rt: HostRuntime) -> Result<(), Fail> {
    let alloc = rt.alloc();
    let netlist = bad_byte_and_comments(alloc)?;
    let commands: [&[u8]; 2] = [b"check", b"serial"];
    for command in commands {
        let mut shelf = MemShelf::new(alloc);
        shelf.add(b"n", &netlist)?;
        shelf.fail_at(3)?;
        let words = texts_of(alloc, &[command, b"n", b"m", b"p"])?;
        let text = b"refused netlist line 1 bad-byte\n";
        expect_words(&rt, alloc, &words, &mut shelf, ROOM, 3, text)?;
    }
    Ok(())
}

#[test]
fn most_workers_without_a_device(rt: HostRuntime) -> Result<(), Fail> {
    let alloc = rt.alloc();
    let mut shelf = MemShelf::new(alloc);
    shelf.add(b"n", b"")?;
    shelf.add(b"m", b"")?;
    shelf.add(b"p", b"")?;
    let words = texts_of(alloc, &[b"check", b"n", b"m", b"p", b"workers=64"])?;
    let text = b"CVC report\ntop - devices 0 nets 0 declared 0\nerrors 0\n";
    expect_words(&rt, alloc, &words, &mut shelf, ROOM, 0, text)?;
    Ok(())
}
