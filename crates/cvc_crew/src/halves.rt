//! The workers run at once: their numbers are halved until each hand has one, and the halves run with a join.
ghost use Rattle.std.specs.Prelude.{◌≡◌, ◌+◌, ◌<◌, ◌≤◌, length};
ghost use Rattle.std.specs.Thread.{IsSync};
ghost use Rattle.cvc_field.specs.Seats.{IsHandOf};
ghost use Rattle.cvc_crew.specs.Workers.{IsDone, IsHandIn, IsDoneIn, numbers_in};

use crate::deques::Member;
use crate::gate::Gate;
use crate::shared::Shared;
use crate::turns::make_turns;
use cvc_field::Hand;
use std::sync::Wait;
use std::thread::{Threads, join_mut};

/// The hand that the place holds is worked with, and put back.
#[cycle(halves)]
fn work_in<R: Threads + Wait + Sync, G: Gate>(
    rt: &R,
    shared: &Shared<G>,
    first: u32,
    place: &mut Option<Hand>,
    members: &mut [Member],
)
    requires hand { IsHandIn shared.now.field.now (length members.old) place.old }
    requires members { (0 < length members.old) × (first + length members.old ≤ shared.now.workers) }
    ensures { IsDoneIn shared.now.field.now place.old place.new }
{
    if let Some(hand) = place.take() {
        *place = Some(work_all(rt, shared, first, hand, members));
    }
}

/// Two hands are worked with at once.
#[cycle(halves)]
fn work_both<R: Threads + Wait + Sync, G: Gate>(
    rt: &R,
    shared: &Shared<G>,
    first: u32,
    second: u32,
    front: &mut Option<Hand>,
    back: &mut Option<Hand>,
    low: &mut [Member],
    high: &mut [Member],
)
    requires some { (0 < numbers_in front.old) × (0 < numbers_in back.old) }
    requires front { IsHandIn shared.now.field.now (length low.old) front.old }
    requires back { IsHandIn shared.now.field.now (length high.old) back.old }
    requires low { (0 < length low.old) × (first + length low.old ≤ shared.now.workers) }
    requires high { (0 < length high.old) × (second + length high.old ≤ shared.now.workers) }
    ensures front { IsDoneIn shared.now.field.now front.old front.new }
    ensures back { IsDoneIn shared.now.field.now back.old back.new }
{
    let mut one = ||
        requires { IsSync R.row × IsSync G.row × IsHandIn shared.now.field.now (length low.now) front.now × (0 < length low.now)
            × (first + length low.now ≤ shared.now.workers) }
        ensures { IsDoneIn shared.entry.now.field.now front.entry.now front.exit.now }
    { work_in(rt, shared, first, front, low) };
    let mut two = ||
        requires { IsSync R.row × IsSync G.row × IsHandIn shared.now.field.now (length high.now) back.now × (0 < length high.now)
            × (second + length high.now ≤ shared.now.workers) }
        ensures { IsDoneIn shared.entry.now.field.now back.entry.now back.exit.now }
    { work_in(rt, shared, second, back, high) };
    join_mut(rt, &mut one, &mut two);
}

/// Works until the hand is quiet, with one worker for each of its numbers. The first worker has the number `first`.
#[cycle(halves)]
pub(crate) fn work_all<R: Threads + Wait + Sync, G: Gate>(
    rt: &R,
    shared: &Shared<G>,
    first: u32,
    hand: Hand,
    members: &mut [Member],
) -> Hand
    requires hand { IsHandOf shared.now.field.now hand }
    requires numbers { hand.numbers ≤ length members.old }
    requires members { (0 < length members.old) × (first + length members.old ≤ shared.now.workers) }
    ensures { IsHandOf shared.now.field.now result × IsDone hand result }
{
    let numbers = hand.numbers();
    if numbers <= 1 {
        return make_turns(rt, shared, first, hand, &mut members[0]);
    }
    let half = numbers / 2;
    let (left, right) = shared.field.split(hand, half);
    let mut front = Some(left);
    let mut back = Some(right);
    let (low, high) = members.split_at_mut(half as usize);
    work_both(
        rt,
        shared,
        first,
        first + half,
        &mut front,
        &mut back,
        low,
        high,
    );
    match (front, back) {
        (Some(left), Some(right)) => shared.field.join(left, right),
        _ => unreachable!(),
    }
}
