//! Settling a circuit by workers.
ghost use Rattle.std.specs.Prelude.{◌≡◌, ◌<◌, ◌≤◌, length, IfOk};
ghost use Rattle.cvc_law.specs.Family.{interval_at};
ghost use Rattle.cvc_law.specs.Least.{IsLeast};
ghost use Rattle.cvc_field.specs.Closings.{nets_in, family_of};

use crate::deques::{Deques, tally_of};
use crate::gate::Gate;
use crate::tally::Tally;
use crate::working::work_with;
use cvc_base::{NetId, NoMemory, Side};
use cvc_field::{Closed, Field};
use cvc_law::{Circuit, Family, Interval};
use std::alloc::Global;
use std::sync::Wait;
use std::thread::Threads;

/// Of no bound is anything known.
const UNKNOWN: Interval = Interval {
    low: None,
    high: None,
};

/// The last bounds of a net.
fn interval_of(closed: &Closed, n: NetId) -> Interval
    requires { n.0 < nets_in closed.now }
    ensures { result ≡ interval_at (family_of closed.now) n.0 }
{
    Interval {
        low: closed.bound(n, Side::Low),
        high: closed.bound(n, Side::High),
    }
}

/// Writes the last bounds of each net to its place.
fn write_family(closed: &Closed, nets: u32, intervals: &mut [Interval])
    requires nets { nets ≡ nets_in closed.now }
    requires intervals { length intervals.old ≡ nets }
    requires family { length (family_of closed.now) ≡ nets }
    ensures { intervals.new ≡ family_of closed.now }
{
    for n in 0..nets {
        intervals[n as usize] = interval_of(closed, NetId(n));
    }
}

/// The least voltage family of the circuit, by 1 to 64 workers, and how they came to their devices.
/// The family is the same for every number of workers, gate and schedule; of the tally nothing is promised.
/// All memory whose want it answers is taken before the first turn, linear in nets, devices and workers.
/// It waits for its workers, so it isn't promised to return.
pub fn settle_tally<R: Threads + Wait + Sync, G: Gate>(
    rt: &R,
    alloc: Global,
    circuit: &Circuit,
    workers: u32,
    gate: &G,
) -> Result<(Family, Tally), NoMemory>
    requires some { 0 < workers }
    requires few { workers ≤ 64 }
    ensures { IfOk result (λ r. IsLeast circuit.now r.0) }
{
    let mut intervals = vec![in alloc; UNKNOWN; circuit.nets() as usize]?;
    let mut deques = Deques::new(alloc, circuit.devices(), workers)?;
    let (field, hand) = Field::new(alloc, circuit, workers)?;
    let hand = work_with(rt, circuit, &field, hand, gate, &mut deques);
    let closed = field.close(hand);
    write_family(&closed, circuit.nets(), intervals.as_mut_slice());
    Ok((Family::new(intervals), tally_of(&deques.members)))
}

/// The least voltage family of the circuit, by 1 to 64 workers: the same for every number of workers, gate and schedule.
/// All memory whose want it answers is taken before the first turn, linear in nets, devices and workers.
/// It waits for its workers, so it isn't promised to return.
pub fn settle<R: Threads + Wait + Sync, G: Gate>(
    rt: &R,
    alloc: Global,
    circuit: &Circuit,
    workers: u32,
    gate: &G,
) -> Result<Family, NoMemory>
    requires some { 0 < workers }
    requires few { workers ≤ 64 }
    ensures { IfOk result (λ f. IsLeast circuit.now f) }
{
    let (family, _) = settle_tally(rt, alloc, circuit, workers, gate)?;
    Ok(family)
}
