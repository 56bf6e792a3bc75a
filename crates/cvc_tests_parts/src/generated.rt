//! The texts of generated circuits.

use cvc_gen::netlist_of;
use std::test::Fail;

const CELLS: &[u8] = b"*.GLOBAL VDD VSS\n\
    .SUBCKT INV A Y\nMN Y A VSS VSS nch L=0.1u\nMP Y A VDD VDD pch L=0.1u\n.ENDS\n\
    .SUBCKT LINK A Y\nR1 A Y 100\n.ENDS\n\
    .SUBCKT LOST A Y\nR1 A Y 100\nMN Y F VSS VSS nch L=0.1u\n.ENDS\n";

// Whole texts; the largest seed has the remainder 0, and a power of 2 to the 64 would have 1.
#[test]
fn generated_stages(rt: HostRuntime) -> Result<(), Fail> {
    let alloc = rt.alloc();
    for (seed, size, stages) in [
        (
            0,
            3,
            b"X0 n0 n1 / INV\nX1 n1 n2 / INV\nX2 n2 n3 / INV\n".as_slice(),
        ),
        (4, 1, b"X0 n0 n1 / LOST\n"),
        (
            u64::MAX,
            6,
            b"X0 n0 n1 / INV\nX1 n1 n2 / INV\nX2 n2 n3 / INV\nX3 n3 n4 / LINK\nX4 n4 n5 / LOST\nX5 n5 n6 / INV\n",
        ),
    ] {
        let files = netlist_of(alloc, seed, size)?;
        let text = files.netlist.bytes();
        assert_eq!(rt; text.strip_prefix(CELLS), Some(stages), "seed {seed}");
        assert_eq!(rt;
            files.models.bytes(),
            b"nch nmos Vth=0.4 Vgs=1.32 Vgd=1.32 Vds=1.32\npch pmos Vth=-0.4 Vgs=1.32 Vgd=1.32 Vds=1.32\nR resistor\n".as_slice()
        );
        assert_eq!(rt;
            files.power.bytes(),
            b"VDD power 1.2\nVSS power 0\nn0 input 0 1.2\n".as_slice()
        );
    }
    Ok(())
}

#[test]
fn the_largest_size(rt: HostRuntime) -> Result<(), Fail> {
    let files = netlist_of(rt.alloc(), 3, 200_000)?;
    let text = files.netlist.bytes();
    assert_eq!(rt; text.iter().filter(|byte| **byte == b'\n').count(), 200_012);
    assert!(rt; text.ends_with(b"X199999 n199999 n200000 / INV\n"));
    Ok(())
}
