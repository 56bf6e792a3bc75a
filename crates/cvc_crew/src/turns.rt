//! The turns of one worker.
ghost use Rattle.std.specs.Prelude.{◌≡◌, ◌<◌, true};
ghost use Rattle.cvc_law.specs.Network.{devices as device_count};
ghost use Rattle.cvc_field.specs.Seats.{IsHandOf};
ghost use Rattle.cvc_field.specs.Trail.{is_quiet};
ghost use Rattle.cvc_crew.specs.Workers.{IsDone, IsKept, next_of};

use crate::deques::Member;
use crate::gate::Gate;
use crate::places::{Source, Task, next_task, scan_place};
use crate::shared::Shared;
use crate::shares::Share;
use crate::tally::Tally;
use crossbeam_deque::Worker;
use crossbeam_utils::Backoff;
use cvc_base::DevId;
use cvc_field::{Field, Hand, Tray, Turn};
use std::sync::Wait;

/// The most rounds of a pause.
const LONGEST_PAUSE: u32 = 1024;

/// The pauses of a worker that finds nothing to do: each has twice as many rounds as the one before it, up to the longest.
#[derive(Drop)]
struct Pauses {
    rounds: u32,
}

/// What a worker does after a turn.
#[derive(Clone, Copy)]
pub(crate) enum Next {
    GoOn,
    Pause,
    End,
}

impl Pauses {
    fn new() -> Pauses {
        Pauses { rounds: 1 }
    }

    fn reset(&mut self) {
        self.rounds = 1;
    }

    fn pause(&mut self) {
        let backoff = Backoff::new();
        for _ in 0..self.rounds {
            backoff.snooze();
        }
        self.rounds = self.rounds.saturating_mul(2).min(LONGEST_PAUSE);
    }
}

fn after(turn: Turn) -> Next
    ensures { result ≡ next_of turn }
{
    match turn {
        Turn::Worked => Next::GoOn,
        Turn::Idle => Next::Pause,
        Turn::Quiet => Next::End,
    }
}

/// A turn on the device of a task. Whether it took the device is no matter: the device's mark says what is left to do.
fn try_task(field: &Field, task: Task, hand: &mut Hand, tray: &mut Tray, tally: &mut Tally)
    requires hand { IsHandOf field.now hand.old }
    requires device { task.device.0 < device_count field.now.circuit.now }
    ensures { IsKept field.now hand.old hand.new }
{
    match task.source {
        Source::Own => tally.count_own(),
        Source::Stolen => tally.count_stolen(),
    }
    field.turn_on(hand, task.device, tray);
}

/// A turn that tries each device once, from the worker's place round.
fn scan<G: Gate>(
    shared: &Shared<G>,
    worker: u32,
    turn: u64,
    hand: &mut Hand,
    tray: &mut Tray,
) -> Next
    requires worker { worker < shared.now.workers }
    requires hand { IsHandOf shared.now.field.now hand.old }
    ensures hand { IsKept shared.now.field.now hand.old hand.new }
    ensures quiet { result ≡ Next.End → is_quiet hand.new.trail ≡ true }
{
    let first = scan_place(shared.devices, shared.workers, worker, turn);
    after(shared.field.turn(hand, first, tray))
}

/// One turn: on a task, or else a scan.
fn make_turn<G: Gate>(
    shared: &Shared<G>,
    worker: u32,
    turn: u64,
    member: &mut Member,
    hand: &mut Hand,
    tray: &mut Tray,
) -> Next
    requires worker { worker < shared.now.workers }
    requires hand { IsHandOf shared.now.field.now hand.old }
    ensures hand { IsKept shared.now.field.now hand.old hand.new }
    ensures quiet { result ≡ Next.End → is_quiet hand.new.trail ≡ true }
{
    match next_task(
        &mut member.tasks,
        shared.stealers,
        worker as usize,
        shared.devices,
    ) {
        Some(task) => {
            try_task(shared.field, task, hand, tray, &mut member.tally);
            Next::GoOn
        }
        None => {
            member.tally.count_scan();
            scan(shared, worker, turn, hand, tray)
        }
    }
}

/// Puts the newly queued devices into the worker's own deque. One that the deque has no room for is dropped, since its mark still says that it is to be tried.
fn push_all(tasks: &mut Worker<DevId>, tray: &Tray) {
    for d in tray.as_slice() {
        let _ = tasks.push(*d);
    }
}

/// The turns of a worker, until one reads a count of 0. Its deque begins with its share of the devices. Each turn goes through the gate before, and
/// puts what it newly queued into the worker's deque after.
pub(crate) fn make_turns<R: Wait, G: Gate>(
    rt: &R,
    shared: &Shared<G>,
    worker: u32,
    hand: Hand,
    member: &mut Member,
) -> Hand
    requires worker { worker < shared.now.workers }
    requires hand { IsHandOf shared.now.field.now hand }
    ensures { IsHandOf shared.now.field.now result × IsDone hand result }
{
    let mut hand = hand;
    let mut tray = Tray::new();
    Share::of(shared.devices, shared.workers, worker).put_into(&mut member.tasks);
    let mut turn: u64 = 0;
    let mut pauses = Pauses::new();
    for _ in rt.forever() {
        shared.gate.before(worker, turn);
        let next = make_turn(shared, worker, turn, member, &mut hand, &mut tray);
        push_all(&mut member.tasks, &tray);
        match next {
            Next::GoOn => pauses.reset(),
            Next::Pause => pauses.pause(),
            Next::End => return hand,
        }
        turn = turn.saturating_add(1);
    }
    unreachable!()
}
