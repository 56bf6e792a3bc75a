//! Circuits whose least families are known from outside, settled on one thread.

use crate::conduction::circuit;
use crate::rules::build::{
    Bounds, Card, Model, UNKNOWN, at, bounds_of, mos, plain, resistor, within,
};
use cvc_base::Kind;
use cvc_law::Circuit;
use cvc_serial::settle_serial;
use std::alloc::Global;
use std::test::Fail;

fn nmos(pins: [u32; 4]) -> Card {
    Card {
        model: mos(Kind::Nmos, 700, 900),
        pins,
    }
}

fn diode(anode: u32, cathode: u32) -> Card {
    let model = Model {
        drop: 600,
        ..plain(Kind::Diode)
    };
    Card {
        model,
        pins: [anode, cathode, 0, 0],
    }
}

fn at_most(high: i64) -> Bounds {
    (None, Some(high))
}

/// The bounds that a circuit settles at, of each net in order.
fn settled(alloc: Global, declared: &[Bounds], cards: &[Card]) -> Result<Vec<Bounds>, Fail> {
    let circuit = circuit(alloc, declared, cards)?;
    let family = settle_serial(alloc, &circuit)?;
    Ok(bounds_of(alloc, &family, circuit.nets())?)
}

/// Nets out, en, src and vss.
#[test]
fn nmos_passes_high_less_threshold(rt: HostRuntime) -> Result<(), Fail> {
    let declared = [UNKNOWN, at(3300), at(3300), at(0)];
    let found = settled(rt.alloc(), &declared, &[nmos([0, 1, 2, 3])])?;
    assert_eq!(rt;
        found.as_slice(),
        [at_most(2600), at(3300), at(3300), at(0)].as_slice()
    );
    Ok(())
}

/// Nets out, en, src and vss.
#[test]
fn nmos_off(rt: HostRuntime) -> Result<(), Fail> {
    let declared = [UNKNOWN, at(0), at(3300), at(0)];
    let found = settled(rt.alloc(), &declared, &[nmos([0, 1, 2, 3])])?;
    assert_eq!(rt; found.as_slice(), declared.as_slice());
    Ok(())
}

/// Nets y, g, vss, en and src.
#[test]
fn floating_gate(rt: HostRuntime) -> Result<(), Fail> {
    let declared = [UNKNOWN, UNKNOWN, at(0), at(3300), at(3300)];
    let cards = [nmos([0, 1, 2, 2]), nmos([1, 3, 4, 2])];
    let found = settled(rt.alloc(), &declared, &cards)?;
    assert_eq!(rt;
        found.as_slice(),
        [at(0), at_most(2600), at(0), at(3300), at(3300)].as_slice()
    );
    Ok(())
}

/// Nets vss, pad and vdd.
#[test]
fn diodes_to_both_rails(rt: HostRuntime) -> Result<(), Fail> {
    let declared = [at(0), UNKNOWN, at(3300)];
    let found = settled(rt.alloc(), &declared, &[diode(0, 1), diode(1, 2)])?;
    assert_eq!(rt; found.as_slice(), declared.as_slice());
    Ok(())
}

/// The bounds that the ring of pass gates settles at, of the nets a, b, c, vss and src.
pub(crate) const RING: [Bounds; 5] = [
    (Some(0), Some(3300)),
    (Some(0), Some(3300)),
    (Some(0), Some(2600)),
    (Some(0), Some(0)),
    (Some(0), Some(3300)),
];

/// Three pass gates in a ring, whose supply comes through two resistors.
pub(crate) fn ring(alloc: Global) -> Result<Circuit, Fail> {
    let declared = [UNKNOWN, UNKNOWN, UNKNOWN, at(0), within(0, 3300)];
    let cards = [
        nmos([0, 1, 2, 3]),
        nmos([1, 2, 0, 3]),
        nmos([2, 0, 1, 3]),
        resistor(4, 0),
        resistor(4, 1),
    ];
    circuit(alloc, &declared, &cards)
}

/// Nets n, o, vss and in.
#[test]
fn gate_tied_to_drain(rt: HostRuntime) -> Result<(), Fail> {
    let declared = [UNKNOWN, UNKNOWN, at(0), within(0, 3300)];
    let found = settled(rt.alloc(), &declared, &[nmos([0, 0, 1, 2]), resistor(3, 0)])?;
    let supply = within(0, 3300);
    assert_eq!(rt;
        found.as_slice(),
        [supply, within(0, 2600), at(0), supply].as_slice()
    );
    Ok(())
}

/// A hub with a resistor to each of eight supplies of falling voltage: it takes in the lowest and the highest.
#[test]
fn hub_of_falling_supplies(rt: HostRuntime) -> Result<(), Fail> {
    let mut declared = [UNKNOWN; 9];
    let mut cards = [resistor(0, 1); 8];
    for i in 0..8 {
        declared[i + 1] = at(800 - 100 * i as i64);
        cards[i] = resistor(0, i as u32 + 1);
    }
    let found = settled(rt.alloc(), &declared, &cards)?;
    declared[0] = within(100, 800);
    assert_eq!(rt; found.as_slice(), declared.as_slice());
    Ok(())
}
