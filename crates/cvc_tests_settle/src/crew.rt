//! Workers on whole circuits.

use crate::rules::build::{UNKNOWN, at, bounds_of, circuit_of, resistor};
use crate::settling::{RING, ring};
use cvc_base::{NetId, NoMemory, Side};
use cvc_crew::{Gate, NoGate, settle, settle_tally, work};
use cvc_field::Field;
use cvc_law::Circuit;
use cvc_serial::settle_serial;
use std::alloc::Global;
use std::sync::atomic::{AtomicU64, Ordering};
use std::test::Fail;
use std::thread;

/// How often a gate looks before it lets a worker go.
const LOOKS: u64 = 50_000_000;

/// Holds one worker before one of its turns until another one begins, or has begun, one of its own.
#[derive(Clone, Copy)]
struct Hold {
    worker: u32,
    turn: u64,
    other: u32,
    other_turn: u64,
}

/// Two holds on two workers. It keeps how many turns each has begun, and how many holds ended because of what they waited for.
#[derive(Drop)]
pub(super) struct TwoHolds {
    holds: [Hold; 2],
    first: AtomicU64,
    second: AtomicU64,
    pub(super) ended: AtomicU64,
}

impl TwoHolds {
    fn new(holds: [Hold; 2]) -> TwoHolds {
        TwoHolds {
            holds,
            first: AtomicU64::new(0),
            second: AtomicU64::new(0),
            ended: AtomicU64::new(0),
        }
    }

    fn begun(&self, worker: u32) -> &AtomicU64 {
        if worker == 0 {
            &self.first
        } else {
            &self.second
        }
    }

    fn wait(&self, hold: Hold) {
        for _ in 0..LOOKS {
            if self.begun(hold.other).load(Ordering::SeqCst) > hold.other_turn {
                self.ended.fetch_add(1, Ordering::SeqCst);
                return;
            }
            thread::yield_now();
        }
    }
}

impl Gate for TwoHolds {
    fn before(&self, worker: u32, turn: u64) {
        let begun = turn.saturating_add(1);
        self.begun(worker).store(begun, Ordering::SeqCst);
        for hold in self.holds {
            if hold.worker == worker && hold.turn == turn {
                self.wait(hold);
            }
        }
    }
}

/// A gate that lets worker 1 begin only once worker 0 has, and holds worker 0 before its first turn until worker 1 has made as many turns.
pub(super) fn until_every_device(turns: u64) -> TwoHolds {
    TwoHolds::new([
        Hold {
            worker: 1,
            turn: 0,
            other: 0,
            other_turn: 0,
        },
        Hold {
            worker: 0,
            turn: 0,
            other: 1,
            other_turn: turns,
        },
    ])
}

/// A gate that lets worker 1 begin only once worker 0 begins its turn 33, and then holds worker 0 there until worker 1 begins its turn 3.
fn until_stolen() -> TwoHolds {
    TwoHolds::new([
        Hold {
            worker: 1,
            turn: 0,
            other: 0,
            other_turn: 33,
        },
        Hold {
            worker: 0,
            turn: 33,
            other: 1,
            other_turn: 3,
        },
    ])
}

/// The nets src, hub and 32 leaves. Devices 0 to 31 are resistors from the hub to one leaf each, and device 32 is one from src to the hub.
fn star(alloc: Global) -> Result<Option<Circuit>, NoMemory> {
    let mut declared = vec![in alloc; UNKNOWN; 34]?;
    declared[0] = at(1200);
    let mut cards = Vec::new(alloc);
    for leaf in 2..34 {
        cards.push(resistor(1, leaf))?;
    }
    cards.push(resistor(0, 1))?;
    circuit_of(alloc, &declared, &cards, 33)
}

#[test]
fn ring_of_pass_gates_by_any_number_of_workers(rt: HostRuntime) -> Result<(), Fail> {
    let alloc = rt.alloc();
    let circuit = ring(alloc)?;
    let alone = settle_serial(alloc, &circuit)?;
    let found = bounds_of(alloc, &alone, circuit.nets())?;
    assert_eq!(rt; found.as_slice(), RING.as_slice());
    for workers in [1, 2, 8, 64] {
        let family = settle(&rt, alloc, &circuit, workers, &NoGate)?;
        let found = bounds_of(alloc, &family, circuit.nets())?;
        assert_eq!(rt; found.as_slice(), RING.as_slice(), "{workers} workers");
    }
    Ok(())
}

#[test]
fn many_workers_and_no_device(rt: HostRuntime) -> Result<(), Fail> {
    let alloc = rt.alloc();
    let declared = [UNKNOWN, at(1200)];
    let circuit = circuit_of(alloc, &declared, &[], 0)?.ok_or("no circuit")?;
    let family = settle(&rt, alloc, &circuit, 64, &NoGate)?;
    let found = bounds_of(alloc, &family, circuit.nets())?;
    assert_eq!(rt; found.as_slice(), declared.as_slice());
    Ok(())
}

#[test]
fn workers_take_every_device_in_settle(rt: HostRuntime) -> Result<(), Fail> {
    let alloc = rt.alloc();
    let circuit = ring(alloc)?;
    let gate = until_every_device(5);
    let family = settle(&rt, alloc, &circuit, 2, &gate)?;
    assert_eq!(rt; gate.ended.load(Ordering::SeqCst), 2);
    let found = bounds_of(alloc, &family, circuit.nets())?;
    assert_eq!(rt; found.as_slice(), RING.as_slice());
    Ok(())
}

#[test]
fn workers_take_every_device_in_work(rt: HostRuntime) -> Result<(), Fail> {
    let alloc = rt.alloc();
    let circuit = ring(alloc)?;
    let gate = until_every_device(5);
    let (field, hand) = Field::new(alloc, &circuit, 2)?;
    let Ok(hand) = work(&rt, alloc, &circuit, &field, hand, &gate) else {
        panic!(rt; "no memory")
    };
    assert_eq!(rt; gate.ended.load(Ordering::SeqCst), 2);
    assert!(rt; hand.is_quiet());
    assert_eq!(rt; hand.numbers(), 2);
    let closed = field.close(hand);
    for n in 0..circuit.nets() {
        let low = closed.bound(NetId(n), Side::Low).map(|v| v.get());
        let high = closed.bound(NetId(n), Side::High).map(|v| v.get());
        assert_eq!(rt; RING.get(n as usize), Some(&(low, high)));
    }
    Ok(())
}

#[test]
fn idle_worker_steals(rt: HostRuntime) -> Result<(), Fail> {
    let alloc = rt.alloc();
    let circuit = star(alloc)?.ok_or("no circuit")?;
    let gate = until_stolen();
    let (family, tally) = settle_tally(&rt, alloc, &circuit, 2, &gate)?;
    assert_eq!(rt; gate.ended.load(Ordering::SeqCst), 2);
    assert!(rt; tally.stolen >= 1, "{tally:?}");
    let found = bounds_of(alloc, &family, circuit.nets())?;
    assert_eq!(rt; found.as_slice(), [at(1200); 34].as_slice());
    Ok(())
}
