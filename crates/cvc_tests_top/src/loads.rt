ghost use Rattle.std.specs.Prelude.{◌≡◌, ◌≤◌, None};
ghost use Rattle.cvc_io.specs.Memory.{standing_of};

use crate::made::bad_byte_and_comments;
use cvc_base::{Cause, Fault, FileKind, NoMemory, Text};
use cvc_io::MemShelf;
use cvc_run::{Design, LoadFault, load_design, load_file};
use std::alloc::Global;
use std::test::Fail;

// Loads the file `n` up to a limit.
fn loaded(
    alloc: Global,
    shelf: &mut MemShelf,
    limit: u64,
) -> Result<Result<Text, LoadFault>, NoMemory>
    requires limit { limit ≤ 134217728 }
    requires closed { standing_of shelf.old ≡ None }
    ensures { standing_of shelf.new ≡ None }
{
    let name = Text::of(alloc, b"n")?;
    Ok(load_file(alloc, &name, limit, shelf))
}

// Loads the netlist `n` and the models `m`.
fn designed(alloc: Global, shelf: &mut MemShelf) -> Result<Result<Design, LoadFault>, NoMemory>
    requires { standing_of shelf.old ≡ None }
    ensures { standing_of shelf.new ≡ None }
{
    let netlist = Text::of(alloc, b"n")?;
    let models = Text::of(alloc, b"m")?;
    Ok(load_design(alloc, &netlist, &models, None, shelf))
}

#[test]
fn a_file_is_loaded_up_to_a_byte_past_its_limit(rt: HostRuntime) -> Result<(), Fail> {
    let alloc = rt.alloc();
    for (limit, wanted) in [
        (9, b"four".as_slice()),
        (4, b"four".as_slice()),
        (3, b"four".as_slice()),
        (2, b"fou".as_slice()),
        (0, b"f".as_slice()),
    ] {
        let mut shelf = MemShelf::new(alloc);
        shelf.add(b"n", b"four")?;
        match loaded(alloc, &mut shelf, limit)? {
            Ok(text) => assert_eq!(rt; text.bytes(), wanted, "at {limit}"),
            Err(_) => return Err(Fail::new("not loaded")),
        }
    }
    Ok(())
}

// Opening is call 1 of the shelf, and the reads are the calls 2 and 3.
#[test]
fn a_file_that_fails_is_not_loaded(rt: HostRuntime) -> Result<(), Fail> {
    let alloc = rt.alloc();
    for call in [1, 2, 3] {
        let mut shelf = MemShelf::new(alloc);
        shelf.add(b"n", b"four")?;
        shelf.fail_at(call)?;
        let fault = loaded(alloc, &mut shelf, 9)?.err();
        assert!(rt; fault == Some(LoadFault::Read), "at call {call}");
    }
    let mut shelf = MemShelf::new(alloc);
    let fault = loaded(alloc, &mut shelf, 9)?.err();
    assert!(rt;
        fault == Some(LoadFault::Read),
        "a name that the shelf lacks"
    );
    Ok(())
}

// The second piece of the netlist, which is call 3 of the shelf, can't be read.
#[test]
fn a_fault_of_the_first_piece_is_answered_before_the_next_is_read(
    rt: HostRuntime,
) -> Result<(), Fail> {
    let alloc = rt.alloc();
    let netlist = bad_byte_and_comments(alloc)?;
    let mut shelf = MemShelf::new(alloc);
    shelf.add(b"n", &netlist)?;
    shelf.fail_at(3)?;
    let fault = designed(alloc, &mut shelf)?.err();
    assert!(rt; fault == Some(LoadFault::At(Fault::at(FileKind::Netlist, 1, Cause::BadByte))));
    Ok(())
}

#[test]
fn a_design_has_the_flat_list_and_the_rows(rt: HostRuntime) -> Result<(), Fail> {
    let alloc = rt.alloc();
    let mut shelf = MemShelf::new(alloc);
    shelf.add(b"n", b"R1 a b 1\n")?;
    shelf.add(b"m", b"R resistor\n")?;
    let Ok(design) = designed(alloc, &mut shelf)? else {
        return Err("not loaded".into());
    };
    assert_eq!(rt; design.flat.devices(), 1);
    assert_eq!(rt; design.flat.nets(), 2);
    assert_eq!(rt; design.models.len(), 1);
    Ok(())
}
