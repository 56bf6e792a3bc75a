//! The worked cases of the rules.

use super::build::{Bounds, Card, Model, UNKNOWN, at, circuit_of, family_of, mos, plain, within};
use cvc_base::{DevId, Finding, Kind, NoMemory, Rule};
use cvc_bias::{bias_at, list_bias};
use cvc_leak::{leak_at, list_leak};
use std::alloc::Global;
use std::test::Fail;

/// The findings of a circuit with its settled family: those about pins, and then the others.
fn findings(
    alloc: Global,
    declared: &[Bounds],
    settled: &[Bounds],
    cards: &[Card],
) -> Result<Vec<Finding>, NoMemory> {
    let mut all = Vec::new(alloc);
    let Some(circuit) = circuit_of(alloc, declared, cards, cards.len())? else {
        return Ok(all);
    };
    let family = family_of(alloc, settled)?;
    if settled.len() != circuit.nets() as usize {
        return Ok(all);
    }
    for finding in list_bias(alloc, &circuit, &family)?.as_slice() {
        all.push(*finding)?;
    }
    for finding in list_leak(alloc, &circuit, &family)?.as_slice() {
        all.push(*finding)?;
    }
    for finding in all.as_slice() {
        let d = finding.device;
        if d.0 < circuit.devices() {
            let again = bias_at(&circuit, &family, finding.rule, d).or(leak_at(
                &circuit,
                &family,
                finding.rule,
                d,
            ));
            if again != Some(*finding) {
                return Ok(Vec::new(alloc));
            }
        }
    }
    Ok(all)
}

fn exceeds(rule: Rule, limit: i64, found: i64) -> Finding {
    Finding {
        rule,
        device: DevId(0),
        first: limit,
        second: found,
        third: 0,
        fourth: 0,
    }
}

fn tells(rule: Rule, numbers: [i64; 4]) -> Finding {
    Finding {
        rule,
        device: DevId(0),
        first: numbers[0],
        second: numbers[1],
        third: numbers[2],
        fourth: numbers[3],
    }
}

fn nhv() -> Model {
    mos(Kind::Nmos, 700, 700)
}

/// Nets d, g and s.
#[test]
fn gate_overvoltage(rt: HostRuntime) -> Result<(), Fail> {
    let nlv = Model {
        gate_source: Some(1320),
        ..mos(Kind::Nmos, 400, 400)
    };
    let cards = [Card {
        model: nlv,
        pins: [0, 1, 2, 2],
    }];
    let high = [at(1200), at(3300), at(0)];
    let found = findings(rt.alloc(), &high, &high, &cards)?;
    assert_eq!(rt;
        found.as_slice(),
        [exceeds(Rule::OvervoltageGs, 1320, 3300)].as_slice()
    );
    let at_limit = [at(1200), at(1320), at(0)];
    let found = findings(rt.alloc(), &at_limit, &at_limit, &cards)?;
    assert_eq!(rt; found.len(), 0);
    Ok(())
}

/// Nets y, a, vdd3 and vss. The pmos turns off within its threshold at neither corner, at the lesser alone, or not where its gate is driven.
#[test]
fn level_shift_leak(rt: HostRuntime) -> Result<(), Fail> {
    let possible = tells(Rule::PossibleLeak, [0, 1200, 0, 3300]);
    let sure = tells(Rule::SureLeak, [0, 1200, 0, 3300]);
    let none: [Finding; 0] = [];
    let cases: [(i64, i64, Bounds, &[Finding]); 4] = [
        (700, 700, within(0, 1200), &[possible]),
        (700, 700, at(1200), &none),
        (500, 2500, within(0, 1200), &[possible]),
        (500, 1500, within(0, 1200), &[possible, sure]),
    ];
    for (threshold, weak, gate, expected) in cases {
        let cards = [
            Card {
                model: mos(Kind::Pmos, threshold, weak),
                pins: [0, 1, 2, 2],
            },
            Card {
                model: nhv(),
                pins: [0, 1, 3, 3],
            },
        ];
        let declared = [UNKNOWN, gate, at(3300), at(0)];
        let settled = [within(0, 3300), gate, at(3300), at(0)];
        let found = findings(rt.alloc(), &declared, &settled, &cards)?;
        assert_eq!(rt; found.as_slice(), expected);
    }
    Ok(())
}

/// Nets y, g, vss, en and src. With one bound of g known nothing is found.
#[test]
fn floating_gate(rt: HostRuntime) -> Result<(), Fail> {
    let first = Card {
        model: nhv(),
        pins: [0, 1, 2, 2],
    };
    let second = Card {
        model: nhv(),
        pins: [1, 3, 4, 2],
    };
    let alone = [UNKNOWN, UNKNOWN, at(0)];
    let found = findings(rt.alloc(), &alone, &alone, &[first])?;
    assert_eq!(rt;
        found.as_slice(),
        [tells(Rule::FloatingGate, [0, 0, 0, 0])].as_slice()
    );
    let declared = [UNKNOWN, UNKNOWN, at(0), at(3300), at(3300)];
    let settled = [at(0), (None, Some(2600)), at(0), at(3300), at(3300)];
    let found = findings(rt.alloc(), &declared, &settled, &[first, second])?;
    assert_eq!(rt; found.len(), 0);
    Ok(())
}

/// Nets vss, pad and vdd.
#[test]
fn diodes_to_both_rails(rt: HostRuntime) -> Result<(), Fail> {
    let model = Model {
        drop: 600,
        ..plain(Kind::Diode)
    };
    let cards = [
        Card {
            model,
            pins: [0, 1, 0, 0],
        },
        Card {
            model,
            pins: [1, 2, 0, 0],
        },
    ];
    let bounds = [at(0), UNKNOWN, at(3300)];
    let found = findings(rt.alloc(), &bounds, &bounds, &cards)?;
    assert_eq!(rt; found.len(), 0);
    Ok(())
}

/// Nets n, o, vss and in.
#[test]
fn gate_tied_to_drain(rt: HostRuntime) -> Result<(), Fail> {
    let cards = [
        Card {
            model: nhv(),
            pins: [0, 0, 1, 2],
        },
        Card {
            model: plain(Kind::Resistor),
            pins: [3, 0, 0, 0],
        },
    ];
    let supply = within(0, 3300);
    let declared = [UNKNOWN, UNKNOWN, at(0), supply];
    let settled = [supply, within(0, 2600), at(0), supply];
    let found = findings(rt.alloc(), &declared, &settled, &cards)?;
    assert_eq!(rt; found.len(), 0);
    Ok(())
}

/// Nets a and k of a diode; nets d, g, s and b of a MOS.
#[test]
fn forward_bias_and_source_bulk(rt: HostRuntime) -> Result<(), Fail> {
    let diode = [Card {
        model: Model {
            drop: 600,
            ..plain(Kind::Diode)
        },
        pins: [0, 1, 0, 0],
    }];
    let mos = [Card {
        model: nhv(),
        pins: [0, 1, 2, 3],
    }];
    let found = findings(rt.alloc(), &[at(600), at(0)], &[at(600), at(0)], &diode)?;
    assert_eq!(rt; found.len(), 0);
    let found = findings(rt.alloc(), &[at(601), at(0)], &[at(601), at(0)], &diode)?;
    assert_eq!(rt;
        found.as_slice(),
        [exceeds(Rule::ForwardBias, 600, 601)].as_slice()
    );
    let low_drain = [at(0), at(0), at(100), at(100)];
    let found = findings(rt.alloc(), &low_drain, &low_drain, &mos)?;
    assert_eq!(rt;
        found.as_slice(),
        [exceeds(Rule::SourceBulk, 0, 100)].as_slice()
    );
    let same = [at(100), at(0), at(100), at(100)];
    let found = findings(rt.alloc(), &same, &same, &mos)?;
    assert_eq!(rt; found.len(), 0);
    Ok(())
}

/// A resistor between supplies tells both ends as they are declared.
#[test]
fn resistor_between_supplies(rt: HostRuntime) -> Result<(), Fail> {
    let cards = [Card {
        model: plain(Kind::Resistor),
        pins: [0, 1, 0, 0],
    }];
    let bounds = [at(1200), at(0)];
    let found = findings(rt.alloc(), &bounds, &bounds, &cards)?;
    assert_eq!(rt;
        found.as_slice(),
        [tells(Rule::SupplyPath, [1200, 1200, 0, 0])].as_slice()
    );
    Ok(())
}
