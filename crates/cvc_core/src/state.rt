//! The public state of the machine.
ghost use Rattle.std.specs.Prelude.{◌≡◌, ◌+◌, ◌*◌, ◌<◌, length, slice_index};
ghost use Rattle.cvc_core.specs.Store.{mark_word};

use crate::scale::{high_of, low_of};
use crate::store::{Mark, Store};
use cvc_base::{DevId, Mv, NetId, Side};
use std::marker::Model;

/// A state of the machine. Contracts see the machine, with the floor and the ceiling that its reaches are measured from.
#[derive(Drop)]
pub struct State {
    pub(crate) floor: Option<Mv>,
    pub(crate) ceiling: Option<Mv>,
    pub(crate) store: Store,
}

impl Model for State {
    ghost use Rattle.cvc_core.specs.Measured.{Measured, AreMeasured};
    ghost use Rattle.cvc_core.specs.Store.{machine_of};

    ghost Value = { Measured };

    ghost view = { λ s. record { floor = s.floor; ceiling = s.ceiling; machine = machine_of s.store } };

    ghost invariant = { λ s. AreMeasured s.floor s.ceiling s.store.bounds.items };
}

impl State {
    ghost use Rattle.cvc_core.specs.Measured.{bound_at};

    /// A bound of a net, in millivolts: `None` where it is unknown.
    pub fn bound(&self, n: NetId, side: Side) -> Option<Mv>
        requires { 2 * n.0 + 1 < length self.now.machine.bounds }
        ensures { result ≡ bound_at self.now n.0 side }
    {
        let low = 2 * n.0 as usize;
        match side {
            Side::Low => low_of(self.floor, self.ceiling, self.store.bounds[low]),
            Side::High => high_of(self.floor, self.ceiling, self.store.bounds[low + 1]),
        }
    }

    /// The count: how many devices are queued, and the credits of all actors.
    pub fn count(&self) -> u64
        ensures { result ≡ self.now.machine.count }
    {
        self.store.count
    }

    /// The mark of a device.
    pub fn mark(&self, d: DevId) -> Mark
        requires { d.0 < length self.now.machine.marks }
        ensures { mark_word result ≡ slice_index self.now.machine.marks d.0 }
    {
        self.store.mark(d)
    }
}
