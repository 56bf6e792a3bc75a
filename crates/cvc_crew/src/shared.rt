//! What all workers share.
ghost use Rattle.std.specs.Prelude.{◌≡◌, length};
ghost use Rattle.cvc_law.specs.Network.{devices as device_count};

use crossbeam_deque::Stealer;
use cvc_base::DevId;
use cvc_field::Field;

/// The field, how many devices its circuit has, the stealing ends of the deques, one a worker, and the gate.
pub(crate) struct Shared<'a, 'c, G> {
    pub(crate) field: &'a Field<'c>,
    pub(crate) devices: u32,
    pub(crate) stealers: &'a [Stealer<DevId>],
    pub(crate) workers: u32,
    pub(crate) gate: &'a G,
    ghost counted: { devices ≡ device_count field.now.circuit.now },
    ghost one_each: { length stealers.now ≡ workers },
}

impl<'a, 'c, G> Drop for Shared<'a, 'c, G> {
    fn drop(self) {
        let Self {
            field: _,
            devices: _,
            stealers: _,
            workers: _,
            gate: _,
        } = self;
    }
}
