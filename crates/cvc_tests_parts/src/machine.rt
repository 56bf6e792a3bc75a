//! Runs of the pure machine.

use crate::fields::one_resistor;
use cvc_base::{DevId, NetId, Side};
use cvc_core::{Event, Mark, run, start, step};
use cvc_law::Circuit;
use std::test::Fail;

const D: DevId = DevId(0);

#[test]
fn machine_run_of_one_resistor(rt: HostRuntime) -> Result<(), Fail> {
    let alloc = rt.alloc();
    let circuit = one_resistor(alloc)?;
    let mut state = start(alloc, &circuit, 1)?;
    let actor = 0;
    let events = [
        Event::Take { actor, device: D },
        Event::Load { actor, read: 0 },
        Event::Load { actor, read: 1 },
        Event::Load { actor, read: 2 },
        Event::Load { actor, read: 3 },
        Event::Lower { actor, slot: 0 },
        Event::Add { actor },
        Event::SetQueued { actor },
        Event::Raise { actor, slot: 1 },
        Event::Add { actor },
        Event::SetQueued { actor },
        Event::DropRunning { actor },
        Event::Subtract { actor },
        Event::Subtract { actor },
        Event::Take { actor, device: D },
        Event::Load { actor, read: 0 },
        Event::Load { actor, read: 1 },
        Event::Load { actor, read: 2 },
        Event::Load { actor, read: 3 },
        Event::Lower { actor, slot: 0 },
        Event::Raise { actor, slot: 1 },
        Event::DropRunning { actor },
        Event::Subtract { actor },
    ];
    assert_eq!(rt; run(&circuit, &mut state, &events), 23);
    assert_eq!(rt; state.count(), 0);
    for side in [Side::Low, Side::High] {
        let bound = state.bound(NetId(1), side);
        assert_eq!(rt; bound.map(|v| v.get()), Some(1200));
    }
    let again = step(&circuit, &mut state, Event::Take { actor, device: D });
    assert!(rt; again.is_err());
    Ok(())
}

#[test]
fn two_actors_on_one_device(rt: HostRuntime) -> Result<(), Fail> {
    let alloc = rt.alloc();
    let circuit = one_resistor(alloc)?;
    let mut state = start(alloc, &circuit, 2)?;
    let absent = [Event::Take {
        actor: 1,
        device: D,
    }];
    assert_eq!(rt; run(&circuit, &mut state, &absent), 0);
    let events = [
        Event::Split { actor: 0, other: 1 },
        Event::Take {
            actor: 0,
            device: D,
        },
        Event::Take {
            actor: 1,
            device: D,
        },
    ];
    assert_eq!(rt; run(&circuit, &mut state, &events), 2);
    assert_eq!(rt;
        state.mark(D),
        Mark {
            queued: false,
            running: true
        }
    );
    Ok(())
}

#[test]
fn no_device(rt: HostRuntime) -> Result<(), Fail> {
    let alloc = rt.alloc();
    let circuit = Circuit::new(alloc, Vec::new(alloc), Vec::new(alloc))?;
    let mut state = start(alloc, &circuit, 1)?;
    let events = [Event::ReadCount { actor: 0 }];
    assert_eq!(rt; run(&circuit, &mut state, &events), 1);
    assert_eq!(rt; state.count(), 0);
    Ok(())
}
