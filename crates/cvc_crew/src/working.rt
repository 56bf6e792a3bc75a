//! Workers on a field that the caller made.
ghost use Rattle.std.specs.Prelude.{◌≡◌, ◌≤◌, true, max, length, IfOk, IfErr};
ghost use Rattle.cvc_field.specs.Seats.{IsHandOf, hands_of};
ghost use Rattle.cvc_field.specs.Trail.{is_quiet};
ghost use Rattle.cvc_crew.specs.Workers.{IsDone};

use crate::deques::Deques;
use crate::gate::Gate;
use crate::halves::work_all;
use crate::shared::Shared;
use cvc_field::{Field, Hand};
use cvc_law::Circuit;
use std::alloc::Global;
use std::sync::Wait;
use std::thread::Threads;

/// What is left where memory ran out before the first turn: the hand as it was handed in.
#[derive(Drop)]
pub struct Unworked {
    pub hand: Hand,
}

/// How many workers a hand of that many numbers wants: one for each, and one at least.
fn workers_for(numbers: u32) -> u32
    ensures { result ≡ max 1 numbers }
{
    numbers.max(1)
}

/// Runs the workers of these deques on the field, until its hand is quiet.
pub(crate) fn work_with<R: Threads + Wait + Sync, G: Gate>(
    rt: &R,
    circuit: &Circuit,
    field: &Field,
    hand: Hand,
    gate: &G,
    deques: &mut Deques,
) -> Hand
    requires circuit { field.now.circuit.now ≡ circuit.now }
    requires hand { IsHandOf field.now hand }
    requires members { length deques.old.members.items ≡ max 1 hand.numbers }
    requires stealers { length deques.old.stealers.items ≡ max 1 hand.numbers }
    ensures { IsHandOf field.now result × IsDone hand result }
{
    let workers = workers_for(hand.numbers());
    let shared = Shared {
        field,
        devices: circuit.devices(),
        stealers: &deques.stealers,
        workers,
        gate,
    };
    work_all(rt, &shared, 0, hand, deques.members.as_mut_slice())
}

/// Runs one worker for each number of the hand on the shared field, each in a thread of its own where one can be made, until no device can widen any net.
/// The hand has all numbers of the field, which is one of this circuit. It takes memory before the first turn alone, but for deques that grow.
/// It waits for its workers, so it isn't promised to return.
pub fn work<R: Threads + Wait + Sync, G: Gate>(
    rt: &R,
    alloc: Global,
    circuit: &Circuit,
    field: &Field,
    hand: Hand,
    gate: &G,
) -> Result<Hand, Unworked>
    requires circuit { field.now.circuit.now ≡ circuit.now }
    requires hand { IsHandOf field.now hand }
    requires whole { (hand.first ≡ 0) × (hand.numbers ≡ hands_of field.now) }
    ensures hand { IfOk result (λ g. IsHandOf field.now g × (g.first ≡ 0) × (g.numbers ≡ hands_of field.now)) }
    ensures quiet { IfOk result (λ g. is_quiet g.trail ≡ true) }
    ensures unworked { IfErr result (λ e. e.hand ≡ hand) }
{
    let workers = workers_for(hand.numbers());
    let Ok(mut deques) = Deques::new(alloc, circuit.devices(), workers) else {
        return Err(Unworked { hand });
    };
    Ok(work_with(rt, circuit, field, hand, gate, &mut deques))
}
