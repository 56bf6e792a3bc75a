//! The lists of many threads are those of one.

ghost use Rattle.std.specs.Prelude.{◌≡◌, length};
ghost use Rattle.cvc_law.specs.Network.{nets};

use super::build::{Card, Model, UNKNOWN, at, circuit_of, family_of, mos, plain, within};
use cvc_base::{Kind, NoMemory, Text};
use cvc_bias::{list_bias, par_list_bias};
use cvc_bind::bind;
use cvc_gen::{Generated, netlist_of};
use cvc_io::MemShelf;
use cvc_law::{Circuit, Family};
use cvc_leak::{list_leak, par_list_leak};
use cvc_power::read_power;
use cvc_run::{LoadFault, load_design};
use cvc_serial::settle_serial;
use std::alloc::Global;
use std::process::Abort;
use std::test::Fail;
use std::thread::Threads;

/// Nets vss, vdd, en and one that nothing drives. The cards have findings of every rule: seven, one, two, one and one of each.
fn cards() -> [Card; 5] {
    [
        Card {
            model: Model {
                gate_source: Some(100),
                others: Some(100),
                ..mos(Kind::Nmos, 400, 400)
            },
            pins: [1, 2, 0, 2],
        },
        Card {
            model: Model {
                drop: 600,
                ..plain(Kind::Diode)
            },
            pins: [1, 0, 0, 0],
        },
        Card {
            model: mos(Kind::Pmos, 500, 1500),
            pins: [0, 2, 1, 1],
        },
        Card {
            model: plain(Kind::Resistor),
            pins: [0, 1, 0, 0],
        },
        Card {
            model: mos(Kind::Nmos, 700, 700),
            pins: [0, 3, 0, 0],
        },
    ]
}

// The lists of many threads are the plain ones, which have so many findings.
fn expect_lists<R: Abort + Threads + Sync>(
    rt: &R,
    alloc: Global,
    circuit: &Circuit,
    family: &Family,
    bias: usize,
    leak: usize,
) -> Result<(), NoMemory>
    requires { length family.now ≡ nets circuit.now }
{
    let plain = list_bias(alloc, circuit, family)?;
    let parallel = par_list_bias(rt, alloc, circuit, family)?;
    assert_eq!(rt; plain.len(), bias);
    assert!(rt; plain.as_slice() == parallel.as_slice());
    let plain = list_leak(alloc, circuit, family)?;
    let parallel = par_list_leak(rt, alloc, circuit, family)?;
    assert_eq!(rt; plain.len(), leak);
    assert!(rt; plain.as_slice() == parallel.as_slice());
    Ok(())
}

#[test]
fn parallel_lists_are_the_plain_lists(rt: HostRuntime) -> Result<(), Fail> {
    let bounds = [at(0), at(3300), within(0, 1200), UNKNOWN];
    let circuit = circuit_of(rt.alloc(), &bounds, &cards(), 100_000)?.ok_or("no circuit")?;
    let family = family_of(rt.alloc(), &bounds)?;
    assert_eq!(rt; circuit.nets(), 4);
    expect_lists(&rt, rt.alloc(), &circuit, &family, 160_000, 80_000)?;
    Ok(())
}

// The circuit of generated files.
fn bound(alloc: Global, files: &Generated) -> Result<Circuit, LoadFault> {
    let mut shelf = MemShelf::new(alloc);
    shelf.add(b"n", files.netlist.bytes())?;
    shelf.add(b"m", files.models.bytes())?;
    let netlist = Text::of(alloc, b"n")?;
    let models = Text::of(alloc, b"m")?;
    let design = load_design(alloc, &netlist, &models, None, &mut shelf)?;
    let power = read_power(alloc, files.power.bytes())?;
    Ok(bind(alloc, &design.flat, &design.models, &power)?)
}

// Each fifth of 60,000 stages has a floating gate, and no other rule holds.
#[test]
fn parallel_lists_of_generated_stages(rt: HostRuntime) -> Result<(), Fail> {
    let alloc = rt.alloc();
    let files = netlist_of(alloc, 0, 60_000)?;
    let circuit = bound(alloc, &files)?;
    let family = settle_serial(alloc, &circuit)?;
    expect_lists(&rt, alloc, &circuit, &family, 0, 12_000)?;
    Ok(())
}
