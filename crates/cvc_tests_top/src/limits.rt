//! The limits of files, tokens and walks, from both sides.

use crate::made::{doubled_cells, joined, nested_cells, numbered_lines};
use crate::refusals::NO_FILES;
use crate::runs::{Case, RESISTOR, expect_files, expect_made, shelf_of};
use std::alloc::{AllocError, Global};
use std::test::Fail;

pub(super) const ACCEPTED: Case = Case {
    models: RESISTOR,
    status: 0,
    ..NO_FILES
};

// A resistor with a name of so many bytes.
fn long_name(alloc: Global, len: usize) -> Result<Vec<u8>, AllocError> {
    let name = vec![in alloc; b'n'; len]?;
    joined(alloc, &[b"R1 a ", &name, b" 1"])
}

#[test]
fn token_and_file_limits(rt: HostRuntime) -> Result<(), Fail> {
    let alloc = rt.alloc();
    let fits = Case {
        text: b"CVC report\ntop - devices 1 nets 2 declared 0\nerrors 0\n",
        ..ACCEPTED
    };
    expect_made(&rt, alloc, &long_name(alloc, 1024)?, &fits)?;
    let too_long = Case {
        text: b"refused netlist line 1 long-token\n",
        ..NO_FILES
    };
    expect_made(&rt, alloc, &long_name(alloc, 1025)?, &too_long)?;
    let mut shelf = shelf_of(alloc, &NO_FILES)?;
    shelf.add(b"m", &vec![in alloc; b'\n'; 16_777_217]?)?;
    let text = b"refused models line 16777217 file-too-long\n";
    expect_files(&rt, alloc, &mut shelf, &[], 4, text)?;
    Ok(())
}

#[test]
fn recursion_and_depth(rt: HostRuntime) -> Result<(), Fail> {
    let alloc = rt.alloc();
    let netlist = nested_cells(alloc, 66)?;
    let deepest = Case {
        options: &[b"top=c64"],
        text: b"CVC report\ntop c64 devices 1 nets 2 declared 0\nerrors 0\n",
        ..ACCEPTED
    };
    expect_made(&rt, alloc, &netlist, &deepest)?;
    let deeper = Case {
        options: &[b"top=c65"],
        text: b"refused netlist line 5 too-deep\n",
        ..NO_FILES
    };
    expect_made(&rt, alloc, &netlist, &deeper)?;
    Ok(())
}

#[test]
fn doubling_cells(rt: HostRuntime) -> Result<(), Fail> {
    let alloc = rt.alloc();
    let case = Case {
        options: &[b"top=c25"],
        text: b"refused netlist line 4 too-many-instances\n",
        ..NO_FILES
    };
    expect_made(&rt, alloc, &doubled_cells(alloc, 26)?, &case)?;
    Ok(())
}

// A million instances: 999 of a cell with a thousand empty ones, and an empty one more.
fn million_instances(alloc: Global) -> Result<Vec<u8>, AllocError> {
    let thousand = numbered_lines(alloc, 0, 1000, &[b"X", b" e\n"])?;
    let cells = numbered_lines(alloc, 0, 999, &[b"X", b" k\n"])?;
    joined(
        alloc,
        &[
            b".SUBCKT e\n.ENDS\n.SUBCKT k\n",
            &thousand,
            b".ENDS\n",
            &cells,
            b"XE e\n",
        ],
    )
}

#[test]
fn most_instances(rt: HostRuntime) -> Result<(), Fail> {
    let alloc = rt.alloc();
    let most = million_instances(alloc)?;
    let accepted = Case {
        text: b"CVC report\ntop - devices 0 nets 0 declared 0\nerrors 0\n",
        ..ACCEPTED
    };
    expect_made(&rt, alloc, &most, &accepted)?;
    let refused = Case {
        text: b"refused netlist line 2005 too-many-instances\n",
        ..NO_FILES
    };
    expect_made(&rt, alloc, &joined(alloc, &[&most, b"XF e\n"])?, &refused)?;
    Ok(())
}

// Half a million resistors, each between two nets of its own: 500 instances of a cell with a thousand of them.
fn million_nets(alloc: Global) -> Result<Vec<u8>, AllocError> {
    let thousand = numbered_lines(alloc, 0, 1000, &[b"R", b" a", b" b", b" 1\n"])?;
    let cells = numbered_lines(alloc, 0, 500, &[b"X", b" k\n"])?;
    joined(alloc, &[b".SUBCKT k\n", &thousand, b".ENDS\n", &cells])
}

#[test]
fn most_devices_and_nets(rt: HostRuntime) -> Result<(), Fail> {
    let alloc = rt.alloc();
    let case = Case {
        text: b"CVC report\ntop - devices 500000 nets 1000000 declared 0\nerrors 0\n",
        ..ACCEPTED
    };
    expect_made(&rt, alloc, &million_nets(alloc)?, &case)?;
    Ok(())
}

// A further device is refused where it stands, and beside a global net the last resistor of the walk has one net too many.
#[test]
fn one_device_or_net_too_many(rt: HostRuntime) -> Result<(), Fail> {
    let alloc = rt.alloc();
    let most = million_nets(alloc)?;
    let device = Case {
        text: b"refused netlist line 1503 too-many-devices\n",
        ..NO_FILES
    };
    expect_made(&rt, alloc, &joined(alloc, &[&most, b"R a b 1\n"])?, &device)?;
    let net = Case {
        text: b"refused netlist line 1001 too-many-nets\n",
        ..NO_FILES
    };
    expect_made(&rt, alloc, &joined(alloc, &[&most, b".GLOBAL g\n"])?, &net)?;
    Ok(())
}
