//! What a worker's deque begins with.
ghost use Rattle.std.specs.Prelude.{◌<◌};

use crate::places::share_start;
use crossbeam_deque::Worker;
use cvc_base::DevId;

/// How many devices a sample has, as a power of two.
const SAMPLE_BITS: u32 = 10;

/// How many devices a sample has.
const SAMPLE: u32 = 1 << SAMPLE_BITS;

/// The least number of devices that a deque has room for at first.
const LEAST_ROOM: u32 = 64;

/// The devices from the first up to the end, to which a worker looks first.
#[derive(Clone, Copy)]
pub(crate) struct Share {
    first: u32,
    end: u32,
}

/// Puts a device last. One that the deque has no room for is dropped, since its mark says that it is to be tried.
fn put(tasks: &mut Worker<DevId>, device: u32) {
    let _ = tasks.push(DevId(device));
}

impl Share {
    /// The share of a worker.
    pub(crate) fn of(devices: u32, workers: u32, worker: u32) -> Share
        requires { worker < workers }
    {
        Share {
            first: share_start(devices, workers, worker),
            end: share_start(devices, workers, worker + 1),
        }
    }

    fn devices(self) -> u32 {
        self.end.saturating_sub(self.first)
    }

    /// Whether it has so many devices that a sample of them is worth a look.
    fn is_large(self) -> bool {
        self.devices() > SAMPLE
    }

    /// How many devices a deque is to have room for.
    pub(crate) fn room(self) -> u32 {
        let sample = if self.is_large() { SAMPLE } else { 0 };
        self.devices()
            .saturating_mul(2)
            .saturating_add(sample)
            .max(LEAST_ROOM)
    }

    /// The device of this number in a sample. Each halves a gap that those before it have left.
    fn sampled(self, number: u32) -> u32 {
        let turned = number.reverse_bits() >> (u32::BITS - SAMPLE_BITS);
        let offset = (u64::from(self.devices()) * u64::from(turned)) >> SAMPLE_BITS;
        self.first.saturating_add(offset as u32)
    }

    /// Puts the devices into a deque: of many a sample first, then all of them forth and back. A net that many devices widen is so widened by some
    /// that lie far apart at first, and what is handed along a chain, in the order of the file or against it, needs one way.
    pub(crate) fn put_into(self, tasks: &mut Worker<DevId>) {
        if self.is_large() {
            for number in 0..SAMPLE {
                put(tasks, self.sampled(number));
            }
        }
        for device in self.first..self.end {
            put(tasks, device);
        }
        for device in (self.first..self.end).rev() {
            put(tasks, device);
        }
    }
}
