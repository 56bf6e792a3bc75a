//! What a state keeps, and its marks.
ghost use Rattle.std.specs.Prelude.{◌≡◌, ◌<◌, ◌↔◌, length, slice_index, IsTrue};
ghost use Rattle.cvc_core.specs.State.{actor_at};
ghost use Rattle.cvc_core.specs.Store.{machine_of, mark_word};
ghost use Rattle.cvc_core.specs.Tried.{run_if};

use crate::{Actor, Run};
use cvc_base::DevId;

/// What is marked of a device.
#[derive(Clone, Copy, Debug, PartialEq, Eq)]
pub struct Mark {
    /// It is to be run.
    pub queued: bool,
    /// An actor runs it.
    pub running: bool,
}

impl Mark {
    ghost use Rattle.cvc_core.specs.Steps.{plain_queued, queued};

    /// Whether the device is to be run and nobody runs it.
    pub(crate) fn is_plain_queued(self) -> bool
        ensures { IsTrue result ↔ (mark_word self ≡ plain_queued) }
    {
        self.queued && !self.running
    }

    /// The mark when the device is to be run, whether somebody runs it now or not.
    pub(crate) fn with_queued(self) -> Mark
        ensures { mark_word result ≡ queued (mark_word self) }
    {
        Mark {
            queued: true,
            running: self.running,
        }
    }
}

/// The parts of a state.
#[derive(Drop)]
pub(crate) struct Store {
    /// The reach of each bound, at twice its net for a low and one more for a high.
    pub(crate) bounds: Vec<u32>,
    /// By device.
    pub(crate) marks: Vec<Mark>,
    pub(crate) count: u64,
    pub(crate) actors: Vec<Actor>,
}

impl Store {
    /// What an actor number is at: absent where there is no such number.
    pub(crate) fn actor(&self, k: u8) -> Actor
        ensures { result ≡ actor_at (machine_of self.now) k }
    {
        let k = usize::from(k);
        if k < self.actors.len() {
            self.actors[k]
        } else {
            Actor::Absent
        }
    }

    /// The run of an actor that runs a device.
    pub(crate) fn running(&self, k: u8) -> Option<Run>
        ensures { result ≡ run_if (actor_at (machine_of self.now) k) }
    {
        match self.actor(k) {
            Actor::Running(run) => Some(run),
            Actor::Absent | Actor::Idle(_) => None,
        }
    }

    /// The mark of a device.
    pub(crate) fn mark(&self, d: DevId) -> Mark
        requires { d.0 < length (machine_of self.now).marks }
        ensures { mark_word result ≡ slice_index (machine_of self.now).marks d.0 }
    {
        self.marks[d.0 as usize]
    }
}
