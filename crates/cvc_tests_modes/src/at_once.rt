//! Modes that are settled at once.
ghost use Rattle.std.specs.Prelude.{◌≡◌, All, IfOk, length};
ghost use Rattle.cvc_power.specs.Power.{IsOrdered};

use cvc_base::{Refusal, Text};
use cvc_io::MemShelf;
use cvc_modes::{ModeGate, Powers, check_modes};
use cvc_power::read_power;
use cvc_run::load_design;
use std::alloc::Global;
use std::sync::atomic::{AtomicU64, Ordering};
use std::test::Fail;
use std::thread;

/// How often the gate looks before it lets a mode go.
const LOOKS: u64 = 50_000_000;

/// Holds each of the modes 0 and 1 until the other was seen, and keeps how many holds ended so.
#[derive(Drop)]
struct BothSeen {
    first: AtomicU64,
    second: AtomicU64,
    ended: AtomicU64,
}

impl BothSeen {
    fn wait_for(&self, other: &AtomicU64) {
        for _ in 0..LOOKS {
            if other.load(Ordering::SeqCst) > 0 {
                self.ended.fetch_add(1, Ordering::SeqCst);
                return;
            }
            thread::yield_now();
        }
    }
}

impl ModeGate for BothSeen {
    fn before(&self, mode: u32) {
        let (this, other) = if mode == 0 {
            (&self.first, &self.second)
        } else {
            (&self.second, &self.first)
        };
        this.store(1, Ordering::SeqCst);
        self.wait_for(other);
    }
}

/// The power rows of two modes: the resistor's ends differ in the first.
fn two_powers(alloc: Global) -> Result<Powers, Refusal>
    ensures ordered { IfOk result (All (All IsOrdered)) }
    ensures two { IfOk result (λ powers. length powers ≡ 2) }
{
    let mut powers = Powers::new(alloc);
    powers.push(read_power(alloc, b"VDD power 1.2\nVSS power 0\n")?)?;
    powers.push(read_power(alloc, b"VDD power 0\nVSS power 0\n")?)?;
    Ok(powers)
}

// A body that settles one mode after the other reaches the limit of the first hold.
#[test]
fn two_modes_run_at_once(rt: HostRuntime) -> Result<(), Fail> {
    let alloc = rt.alloc();
    let mut shelf = MemShelf::new(alloc);
    shelf.add(b"n", b"R1 VDD VSS 100\n")?;
    shelf.add(b"m", b"R resistor\n")?;
    let netlist = Text::of(alloc, b"n")?;
    let models = Text::of(alloc, b"m")?;
    let Ok(design) = load_design(alloc, &netlist, &models, None, &mut shelf) else {
        panic!(rt; "no design")
    };
    let Ok(powers) = two_powers(alloc) else {
        panic!(rt; "no power rows")
    };
    let gate = BothSeen {
        first: AtomicU64::new(0),
        second: AtomicU64::new(0),
        ended: AtomicU64::new(0),
    };
    let Ok(results) = check_modes(&rt, alloc, &design.flat, &design.models, &powers, &gate) else {
        panic!(rt; "no results")
    };
    assert_eq!(rt; gate.ended.load(Ordering::SeqCst), 2);
    assert_eq!(rt; results.len(), 2);
    let found = results.as_slice();
    assert_eq!(rt; found[0].findings.len(), 1);
    assert_eq!(rt; found[1].findings.len(), 0);
    Ok(())
}
