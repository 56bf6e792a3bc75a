//! Which files a run opens: each only when all before it are accepted.
ghost use Rattle.std.specs.Prelude.{◌≡◌, None, IfOk};
ghost use Rattle.cvc_io.specs.SureFiles.{standing_of};

use crate::refusals::NO_FILES;
use crate::runs::{Case, RESISTOR, ROOM, texts_of, words_of};
use cvc_base::{NoMemory, Texts};
use cvc_io::{MemSink, OpenFailed, ReadFailed, Shelf, SureShelf};
use cvc_top::top;
use std::alloc::Global;
use std::process::Abort;
use std::sync::Wait;
use std::test::Fail;
use std::thread::Threads;

// A shelf that never fails, with the names that were opened, one after another.
#[derive(Drop)]
struct NotedShelf {
    files: SureShelf,
    opened: Vec<u8>,
}

impl Shelf for NotedShelf {
    ghost use Rattle.std.specs.Prelude.{Some};
    ghost use Rattle.cvc_io.specs.SureFiles.{files_of, standing_of};

    ghost files = { λ s. Some (files_of s.files) };

    ghost standing = { λ s. standing_of s.files };

    ghost faults = { λ _ _. 0 };

    fn open_file(&mut self, name: &[u8]) -> Result<(), OpenFailed> {
        let _noted = self.opened.extend_from_slice(name);
        self.files.open_file(name)
    }

    fn read(&mut self, buf: &mut [u8]) -> Result<usize, ReadFailed> {
        self.files.read(buf)
    }

    fn close_file(&mut self) {
        self.files.close_file();
    }
}

// A shelf with the files `n`, `m` and `p` of a case.
fn noted(alloc: Global, case: &Case) -> Result<NotedShelf, NoMemory>
    ensures { IfOk result (λ shelf. standing_of shelf.files ≡ None) }
{
    let mut files = SureShelf::new(alloc);
    files.add(b"n", case.netlist)?;
    files.add(b"m", case.models)?;
    files.add(b"p", case.power)?;
    Ok(NotedShelf {
        files,
        opened: Vec::new(alloc),
    })
}

// Runs `top` on the words, and looks at the names that it opened.
fn expect_opened<R: Abort + Threads + Wait + Sync>(
    rt: &R,
    alloc: Global,
    words: &Texts,
    case: &Case,
    opened: &[u8],
) -> Result<(), NoMemory> {
    let mut shelf = noted(alloc, case)?;
    let mut sink = MemSink::new(alloc, ROOM)?;
    let found = top(rt, alloc, words, &mut shelf, &mut sink);
    assert_eq!(rt; found.code(), case.status);
    assert_eq!(rt; shelf.opened.as_slice(), opened);
    Ok(())
}

#[test]
fn no_file_is_opened_behind_one_that_is_refused(rt: HostRuntime) -> Result<(), Fail> {
    let alloc = rt.alloc();
    for (case, opened) in [
        (
            Case {
                netlist: b"+ a",
                ..NO_FILES
            },
            b"n".as_slice(),
        ),
        // The flat list is refused.
        (
            Case {
                netlist: b".PARAM p=p\nR1 a b 1 w=p\n",
                ..NO_FILES
            },
            b"n",
        ),
        (
            Case {
                models: b"d diode Vf=-0.1",
                status: 4,
                ..NO_FILES
            },
            b"nm",
        ),
        (
            Case {
                power: b"VDD power x",
                status: 5,
                ..NO_FILES
            },
            b"nmp",
        ),
        // The binding is refused.
        (
            Case {
                netlist: b"R1 a b 1\n",
                status: 6,
                ..NO_FILES
            },
            b"nmp",
        ),
        (
            Case {
                netlist: b"R1 a b 1\n",
                models: RESISTOR,
                status: 0,
                ..NO_FILES
            },
            b"nmp",
        ),
    ] {
        let commands: [&[u8]; 2] = [b"check", b"serial"];
        for command in commands {
            let words = words_of(alloc, command, &[b"n", b"m", b"p"], &[])?;
            expect_opened(&rt, alloc, &words, &case, opened)?;
        }
    }
    Ok(())
}

#[test]
fn words_without_files_open_none(rt: HostRuntime) -> Result<(), Fail> {
    let alloc = rt.alloc();
    let refused = texts_of(alloc, &[b"check", b"n", b"m"])?;
    let case = Case {
        status: 2,
        ..NO_FILES
    };
    expect_opened(&rt, alloc, &refused, &case, b"")?;
    let generated = texts_of(alloc, &[b"gen", b"4", b"1"])?;
    let case = Case {
        status: 1,
        ..NO_FILES
    };
    expect_opened(&rt, alloc, &generated, &case, b"")?;
    Ok(())
}
