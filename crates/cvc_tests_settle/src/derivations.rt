//! Families that settle from bounds within them, and derivations that are replayed line by line.
ghost use Rattle.std.specs.Prelude.{◌≡◌, ℕ, IfOk, IsTrue, length};
ghost use Rattle.cvc_law.specs.Family.{interval_at};
ghost use Rattle.cvc_law.specs.Monotone.{IsAsWide};
ghost use Rattle.cvc_law.specs.Network.{nets};

use crate::conduction::circuit;
use crate::rules::build::{UNKNOWN, at, bounds_of, family_of, resistor, within};
use crate::settling::{RING, ring};
use cvc_base::{DevId, Mv, NetId, NoMemory};
use cvc_law::laws::there_is_exactly_one_least_family;
use cvc_law::{Circuit, Family, Interval, gives};
use cvc_serial::{LogLine, derive, settle_from, settle_serial};
use std::alloc::Global;
use std::test::Fail;

/// Whether each bound that is known is known to the other interval, and is there as wide or wider.
fn is_as_wide(interval: Interval, other: Interval) -> bool
    ensures { IsTrue result → IsAsWide interval other }
{
    let low = match (interval.low, other.low) {
        (None, _) => true,
        (Some(bound), Some(wider)) => wider.get() <= bound.get(),
        (Some(_), None) => false,
    };
    let high = match (interval.high, other.high) {
        (None, _) => true,
        (Some(bound), Some(wider)) => bound.get() <= wider.get(),
        (Some(_), None) => false,
    };
    low && high
}

/// Whether a family of this many nets is within another one.
fn is_within(count: u32, family: &Family, other: &Family) -> bool
    requires family { length family.now ≡ count }
    requires other { length other.now ≡ count }
    ensures { IsTrue result → (n : ℕ) → IsAsWide (interval_at family.now n) (interval_at other.now n) }
{
    for n in 0..count {
        if !is_as_wide(family.interval(NetId(n)), other.interval(NetId(n))) {
            return false;
        }
    }
    true
}

/// The least family of the circuit, found from one that must be within it.
fn settled_from(alloc: Global, circuit: &Circuit, family: &Family) -> Result<Family, Fail>
    requires { length family.now ≡ nets circuit.now }
    ensures { IfOk result (λ settled. length settled ≡ nets circuit.now) }
{
    let least = settle_serial(alloc, circuit)?;
    if !is_within(circuit.nets(), family, &least) {
        return Err(Fail::new("not within the least family"));
    }
    there_is_exactly_one_least_family();
    Ok(settle_from(alloc, circuit, family)?)
}

/// A resistor from a supply to another net, begun at the supply's top: the other net takes in the whole supply.
#[test]
fn settled_from_the_top_of_a_supply(rt: HostRuntime) -> Result<(), Fail> {
    let alloc = rt.alloc();
    let circuit = circuit(alloc, &[within(0, 1200), UNKNOWN], &[resistor(0, 1)])?;
    let top = family_of(alloc, &[at(1200), at(1200)])?;
    assert!(rt; circuit.nets() == 2);
    let settled = settled_from(alloc, &circuit, &top)?;
    let bounds = bounds_of(alloc, &settled, 2)?;
    assert_eq!(rt;
        bounds.as_slice(),
        [within(0, 1200), within(0, 1200)].as_slice()
    );
    Ok(())
}

/// What is declared of each net.
fn declared(alloc: Global, circuit: &Circuit) -> Result<Vec<Interval>, NoMemory>
    ensures { IfOk result (λ intervals. length intervals.items ≡ nets circuit.now) }
{
    let mut intervals = Vec::new(alloc);
    for n in 0..circuit.nets() {
        intervals.push(match circuit.fixed(NetId(n)) {
            Some(fixed) => Interval {
                low: Some(fixed.low),
                high: Some(fixed.high),
            },
            None => Interval {
                low: None,
                high: None,
            },
        })?;
    }
    Ok(intervals)
}

/// Whether a bound didn't reach this far yet.
fn widens(bound: Option<Mv>, is_low: bool, value: Mv) -> bool {
    match bound {
        None => true,
        Some(old) if is_low => value.get() < old.get(),
        Some(old) => old.get() < value.get(),
    }
}

/// Widens the bound that the line gives to. Its net must be free, and the slot must give just that value, which the bound didn't reach.
fn replay(circuit: &Circuit, line: LogLine, intervals: &mut [Interval]) -> Result<(), Fail>
    requires { length intervals.old ≡ nets circuit.now }
    ensures { length intervals.new ≡ nets circuit.now }
{
    if line.device >= circuit.devices() || line.slot > 3 {
        return Err(Fail::new("no such slot"));
    }
    let conductor = circuit.conductor(DevId(line.device));
    let net = conductor.target(line.slot);
    let given = gives(
        circuit,
        DevId(line.device),
        line.slot,
        &conductor.reads(intervals),
    );
    if circuit.fixed(net).is_some() || given != Some(line.value.get()) {
        return Err(Fail::new("not justified"));
    }
    let interval = &mut intervals[net.0 as usize];
    let is_low = line.slot % 2 == 0;
    let bound = if is_low {
        &mut interval.low
    } else {
        &mut interval.high
    };
    if !widens(*bound, is_low, line.value) {
        return Err(Fail::new("nothing widened"));
    }
    *bound = Some(line.value);
    Ok(())
}

/// The ring of pass gates: each line of its derivation is justified by those before it, and together they give the least family.
#[test]
fn derivation_of_the_ring_of_pass_gates(rt: HostRuntime) -> Result<(), Fail> {
    let alloc = rt.alloc();
    let circuit = ring(alloc)?;
    let mut intervals = declared(alloc, &circuit)?;
    for line in derive(alloc, &circuit)?.as_slice() {
        replay(&circuit, *line, intervals.as_mut_slice())?;
    }
    let bounds = bounds_of(alloc, &Family::new(intervals), circuit.nets())?;
    assert_eq!(rt; bounds.as_slice(), RING.as_slice());
    Ok(())
}
