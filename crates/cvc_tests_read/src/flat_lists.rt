//! Flat lists of whole netlists: their nets and devices by number, names that are looked up, and parameters.

use cvc_base::Cause::ParamLoop;
use cvc_base::{DevId, Fault, FileKind, NetId, Text, Value};
use cvc_flat::Flat;
use cvc_io::{MemShelf, MemSink};
use cvc_run::{LoadFault, load_design};
use std::alloc::Global;
use std::test::Fail;

// Two inverters, with directives before them.
const INVERTERS: &[u8] =
    b"****************\n* two inverters\n*.BIPOLAR\n*.RESI = 2000\n*.SCALE METER\n*.MEGA\n.PARAM\n\n\
        *.GLOBAL vdd!\n+        vss!\n*.PIN vdd!\n*+    vss!\n\
        .SUBCKT inv A Y\n*.PININFO A:I Y:O\nMM0 Y A vss! vss! nch W=1u L=60n m=1\nMM1 Y A vdd! vdd! pch W=2u L=60n m=1\n.ENDS\n\
        .SUBCKT top IN OUT\n*.PININFO IN:I OUT:O\nXI0 IN net1 / inv\nXI1 net1 OUT / inv\n.ENDS\n";

fn flat_of(alloc: Global, netlist: &[u8]) -> Result<Flat, LoadFault> {
    let mut shelf = MemShelf::new(alloc);
    shelf.add(b"n", netlist)?;
    shelf.add(b"m", b"")?;
    let netlist = Text::of(alloc, b"n")?;
    let models = Text::of(alloc, b"m")?;
    let design = load_design(alloc, &netlist, &models, None, &mut shelf)?;
    Ok(design.flat)
}

// The printed names of the nets, a line for each.
fn nets_of(alloc: Global, flat: &Flat) -> Result<Vec<u8>, Fail> {
    let mut text = Vec::new(alloc);
    for net in 0..flat.nets() {
        let mut sink = MemSink::new(alloc, 100)?;
        flat.net_path_of(NetId(net), &mut sink)?;
        text.extend_from_slice(sink.bytes())?;
        text.push(b'\n')?;
    }
    Ok(text)
}

// The printed names of the devices, each with the numbers of its pins and its model, a line for each.
fn devices_of(alloc: Global, flat: &Flat) -> Result<Vec<u8>, Fail> {
    let mut text = Vec::new(alloc);
    for device in 0..flat.devices() {
        let mut sink = MemSink::new(alloc, 100)?;
        flat.path_of(DevId(device), &mut sink)?;
        text.extend_from_slice(sink.bytes())?;
        for pin in flat.pins(DevId(device)).as_slice() {
            let number = format!(in alloc; " {}", pin.0)?;
            text.extend_from_slice(number.as_bytes())?;
        }
        text.push(b' ')?;
        text.extend_from_slice(flat.model(DevId(device)))?;
        text.push(b'\n')?;
    }
    Ok(text)
}

#[test]
fn nets_and_devices(rt: HostRuntime) -> Result<(), Fail> {
    let alloc = rt.alloc();
    let files: [(&[u8], &[u8], &[u8]); 7] = [
        (
            INVERTERS,
            b"vdd!\nvss!\nIN\nOUT\nnet1\n",
            b"XI0/MM0 4 2 1 1 nch\nXI0/MM1 4 2 0 0 pch\nXI1/MM0 3 4 1 1 nch\nXI1/MM1 3 4 0 0 pch\n",
        ),
        // An instance that is connected by name.
        (
            b".SUBCKT pass A Y S B\nMN Y A S S nch L=0.2u\n.ENDS\nXI0 / pass $PINS A=en S=sig Y=out",
            b"out\nen\nsig\n",
            b"XI0/MN 0 1 2 2 nch\n",
        ),
        // A port that is left out is a net of the instance.
        (
            b".SUBCKT c a b\nR1 a b 1\n.ENDS\nX1 / c $PINS a=b",
            b"b\nX1/b\n",
            b"X1/R1 0 1 R\n",
        ),
        // A port with a global's name.
        (
            b".GLOBAL a\n.SUBCKT c a\nR1 a b 1\n.ENDS\nX1 n c",
            b"a\nX1/b\n",
            b"X1/R1 0 1 R\n",
        ),
        // What is connected two levels up, and a name that stands on both levels.
        (
            b".SUBCKT c p\nR1 p t 1\n.ENDS\n.SUBCKT d q\nX2 q c\nR2 q t 1\n.ENDS\nX1 t d",
            b"t\nX1/X2/t\nX1/t\n",
            b"X1/X2/R1 0 1 R\nX1/R2 0 2 R\n",
        ),
        // An instance whose name has a slash.
        (
            b".SUBCKT c p\nR1 p q 1\n.ENDS\nXa/b n c",
            b"n\nXa/b/q\n",
            b"Xa/b/R1 0 1 R\n",
        ),
        // A plain token is no parameter.
        (
            b".SUBCKT c a w=2\nR1 a b w\n.ENDS\nX1 n c",
            b"n\nX1/b\n",
            b"X1/R1 0 1 w\n",
        ),
    ];
    for (netlist, nets, devices) in files {
        let flat = flat_of(alloc, netlist)?;
        assert_eq!(rt; nets_of(alloc, &flat)?.as_slice(), nets);
        assert_eq!(rt; devices_of(alloc, &flat)?.as_slice(), devices);
    }
    Ok(())
}

#[test]
fn nets_by_their_names(rt: HostRuntime) -> Result<(), Fail> {
    let netlist = b"*.GLOBAL vdd!\n.SUBCKT c a\nR1 a vdd! 1\nR2 a u/v 1\n.ENDS\nXI0 n c\nXa/b n c";
    let flat = flat_of(rt.alloc(), netlist)?;
    let names: [(&[u8], Option<u32>); 9] = [
        (b"vdd!", Some(0)),
        (b"XI0/vdd!", Some(0)),
        (b"n", Some(1)),
        (b"XI0/a", Some(1)),
        (b"XI0/u/v", Some(2)),
        (b"Xa/b/u/v", Some(3)),
        (b"Xa/b/a", None),
        (b"XI0/b", None),
        (b"", None),
    ];
    for (name, want) in names {
        assert_eq!(rt; flat.find_net(name).map(|net| net.0), want);
    }
    Ok(())
}

#[test]
fn parameters_and_a_loop(rt: HostRuntime) -> Result<(), Fail> {
    let looped = flat_of(rt.alloc(), b".PARAM x=y y=x\nR1 a b 1 w=x").err();
    assert!(rt; looped == Some(LoadFault::At(Fault::at(FileKind::Netlist, 2, ParamLoop))));
    let flat = flat_of(rt.alloc(), b".PARAM x=y\nR1 a b 1 w=x")?;
    assert_eq!(rt; flat.devices(), 1);
    let params = flat.params(DevId(0)).as_slice();
    assert_eq!(rt; params.len(), 2);
    let number = &params[0];
    assert_eq!(rt; number.name.bytes(), b"R".as_slice());
    assert!(rt;
        matches!(
            number.value,
            Value::Number(1_000_000_000_000_000_000_000_000)
        )
    );
    let word = &params[1];
    assert_eq!(rt; word.name.bytes(), b"w".as_slice());
    assert!(rt; matches!(&word.value, Value::Word(text) if text.bytes() == b"y".as_slice()));
    Ok(())
}
