//! The deques of the workers, all made before the first turn.
ghost use Rattle.std.specs.Prelude.{◌≡◌, ◌<◌, length, IfOk};

use crate::shares::Share;
use crate::tally::Tally;
use crossbeam_deque::{Stealer, Worker};
use cvc_base::{DevId, NoMemory};
use std::alloc::Global;

/// What a worker alone has: its deque of devices to try next, first in first out, and its count of turns.
#[derive(Drop)]
pub(crate) struct Member {
    pub(crate) tasks: Worker<DevId>,
    pub(crate) tally: Tally,
}

/// What the workers have, in their order, and the ends of their deques from which others steal.
#[derive(Drop)]
pub(crate) struct Deques {
    pub(crate) members: Vec<Member>,
    pub(crate) stealers: Vec<Stealer<DevId>>,
}

impl Member {
    /// A worker whose empty deque has room for its share of the devices.
    fn new(alloc: Global, share: Share) -> Result<Member, NoMemory> {
        let tasks = Worker::new_fifo(alloc, share.room() as usize)?;
        Ok(Member {
            tasks,
            tally: Tally::NONE,
        })
    }
}

/// What each of this many workers has.
fn members_of(alloc: Global, devices: u32, workers: u32) -> Result<Vec<Member>, NoMemory>
    requires { 0 < workers }
    ensures { IfOk result (λ v. length v.items ≡ workers) }
{
    let mut members = Vec::with_capacity(alloc, workers as usize)?;
    for worker in 0..workers {
        let share = Share::of(devices, workers, worker);
        members.push(Member::new(alloc, share)?)?;
    }
    Ok(members)
}

fn stealers_of(alloc: Global, members: &[Member]) -> Result<Vec<Stealer<DevId>>, NoMemory>
    ensures { IfOk result (λ v. length v.items ≡ length members.now) }
{
    let mut stealers = Vec::with_capacity(alloc, members.len())?;
    for member in members {
        stealers.push(member.tasks.stealer()?)?;
    }
    Ok(stealers)
}

/// The turns of all of them.
pub(crate) fn tally_of(members: &[Member]) -> Tally {
    let mut all = Tally::NONE;
    for member in members {
        all = all.plus(member.tally);
    }
    all
}

impl Deques {
    /// An empty deque for each of this many workers, with room for its share of the devices. It takes all its memory here, but a deque may try to
    /// grow later.
    pub(crate) fn new(alloc: Global, devices: u32, workers: u32) -> Result<Deques, NoMemory>
        requires { 0 < workers }
        ensures members { IfOk result (λ d. length d.members.items ≡ workers) }
        ensures stealers { IfOk result (λ d. length d.stealers.items ≡ workers) }
    {
        let members = members_of(alloc, devices, workers)?;
        let stealers = stealers_of(alloc, &members)?;
        Ok(Deques { members, stealers })
    }
}
