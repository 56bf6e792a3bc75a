//! Circuits, what their devices conduct, and closed families.

use crate::rules::build::{Bounds, Card, Model, UNKNOWN, at, circuit_of, mos, plain, within};
use cvc_base::{DevId, Kind, Mv, NetId};
use cvc_law::{Circuit, Family, Fixed, Interval, Reads, closed_at, gives};
use std::alloc::Global;
use std::process::Abort;
use std::test::Fail;

/// The circuit of these declared bounds and cards, which must be one.
pub(crate) fn circuit(alloc: Global, declared: &[Bounds], cards: &[Card]) -> Result<Circuit, Fail> {
    match circuit_of(alloc, declared, cards, cards.len())? {
        Some(circuit) => Ok(circuit),
        None => Err(Fail::new("no circuit")),
    }
}

fn mv(rt: &impl Abort, millivolts: i64) -> Mv {
    Mv::new(millivolts).expect(rt, "within a million millivolts")
}

fn bound(rt: &impl Abort, millivolts: Option<i64>) -> Option<Mv> {
    match millivolts {
        Some(v) => Some(mv(rt, v)),
        None => None,
    }
}

fn interval(rt: &impl Abort, low: Option<i64>, high: Option<i64>) -> Interval {
    Interval {
        low: bound(rt, low),
        high: bound(rt, high),
    }
}

/// `M1 n n o vss` and `R1 in n`, with the nets in, vss, n, o.
#[test]
fn fans_of_a_gate_tied_to_its_drain(rt: HostRuntime) -> Result<(), Fail> {
    let declared = [within(0, 3300), at(0), UNKNOWN, UNKNOWN];
    let cards = [
        Card {
            model: mos(Kind::Nmos, 700, 700),
            pins: [2, 2, 3, 1],
        },
        Card {
            model: plain(Kind::Resistor),
            pins: [0, 2, 0, 0],
        },
    ];
    let circuit = circuit(rt.alloc(), &declared, &cards)?;
    assert_eq!(rt; circuit.nets(), 4);
    assert_eq!(rt; circuit.devices(), 2);
    assert_eq!(rt; circuit.fan(NetId(0)), [DevId(1)].as_slice());
    assert_eq!(rt; circuit.fan(NetId(1)), [].as_slice());
    assert_eq!(rt; circuit.fan(NetId(2)), [DevId(0), DevId(1)].as_slice());
    assert_eq!(rt; circuit.fan(NetId(3)), [DevId(0)].as_slice());
    assert_eq!(rt; circuit.floor(), Some(mv(&rt, 0)));
    assert_eq!(rt; circuit.ceiling(), Some(mv(&rt, 3300)));
    let vss = Fixed {
        low: mv(&rt, 0),
        high: mv(&rt, 0),
    };
    assert_eq!(rt; circuit.fixed(NetId(1)), Some(vss));
    assert_eq!(rt; circuit.device(DevId(1)).kind, Kind::Resistor);
    Ok(())
}

/// A device, a slot, the lows and highs of a, b and g, and what is given. The range is 0 to 5000.
type Case = (Kind, u8, [Option<i64>; 6], Option<i64>);

const CASES: [Case; 14] = [
    (
        Kind::Resistor,
        0,
        [None, Some(900), None, None, None, None],
        None,
    ),
    (
        Kind::Resistor,
        1,
        [None, Some(900), None, None, None, None],
        Some(900),
    ),
    (
        Kind::Inductor,
        2,
        [None, None, Some(200), None, None, None],
        Some(200),
    ),
    (
        Kind::Nmos,
        0,
        [Some(100), None, None, None, None, Some(800)],
        Some(100),
    ),
    (
        Kind::Nmos,
        0,
        [Some(100), None, None, None, None, Some(799)],
        None,
    ),
    (
        Kind::Nmos,
        1,
        [None, Some(3300), None, None, None, Some(3300)],
        Some(2600),
    ),
    (
        Kind::Nmos,
        3,
        [None, None, None, Some(3300), None, Some(300)],
        None,
    ),
    (
        Kind::Pmos,
        0,
        [Some(100), None, None, None, Some(0), None],
        Some(700),
    ),
    (
        Kind::Pmos,
        1,
        [None, Some(700), None, None, Some(0), None],
        Some(700),
    ),
    (
        Kind::Pmos,
        1,
        [None, Some(699), None, None, Some(0), None],
        None,
    ),
    (
        Kind::Diode,
        1,
        [None, Some(1000), None, None, None, None],
        Some(400),
    ),
    (
        Kind::Diode,
        2,
        [None, None, Some(4800), None, None, None],
        None,
    ),
    (
        Kind::Capacitor,
        0,
        [Some(100), Some(100), Some(100), Some(100), None, None],
        None,
    ),
    (
        Kind::Bipolar,
        1,
        [Some(100), Some(100), Some(100), Some(100), None, None],
        None,
    ),
];

/// A model of the kind with a threshold of 700 and a drop of 600.
fn model_of(kind: Kind) -> Model {
    Model {
        drop: 600,
        ..mos(kind, 700, 700)
    }
}

/// What the slot of a circuit's one device gives.
fn given_by_one(alloc: Global, kind: Kind, slot: u8, reads: &Reads) -> Result<Option<i64>, Fail> {
    let declared = [within(0, 5000), UNKNOWN, UNKNOWN, UNKNOWN];
    let card = Card {
        model: model_of(kind),
        pins: [0, 1, 2, 3],
    };
    let circuit = circuit(alloc, &declared, &[card])?;
    if circuit.devices() != 1 || slot > 3 {
        return Err(Fail::new("no such slot"));
    }
    Ok(gives(&circuit, DevId(0), slot, reads))
}

#[test]
fn conduction_by_the_table(rt: HostRuntime) -> Result<(), Fail> {
    for (kind, slot, [a_low, a_high, b_low, b_high, g_low, g_high], want) in &CASES {
        let reads = Reads {
            a: interval(&rt, *a_low, *a_high),
            b: interval(&rt, *b_low, *b_high),
            g: interval(&rt, *g_low, *g_high),
        };
        let given = given_by_one(rt.alloc(), *kind, *slot, &reads)?;
        assert_eq!(rt; given, *want, "{kind:?} {slot}");
    }
    Ok(())
}

#[test]
fn closed_where_the_supply_is_handed_on(rt: HostRuntime) -> Result<(), Fail> {
    let alloc = rt.alloc();
    let supply = interval(&rt, Some(0), Some(3300));
    let card = Card {
        model: plain(Kind::Resistor),
        pins: [0, 1, 0, 0],
    };
    for (other, want) in [
        (supply, true),
        (interval(&rt, None, Some(3300)), false),
        (interval(&rt, Some(0), Some(3299)), false),
    ] {
        let circuit = circuit(alloc, &[within(0, 3300), UNKNOWN], &[card])?;
        let family = Family::new(vec![in alloc; supply, other]?);
        assert!(rt; circuit.devices() == 1 && circuit.nets() == 2);
        assert_eq!(rt; closed_at(&circuit, &family, DevId(0)), want);
    }
    Ok(())
}
