//! Voltage families.
ghost use Rattle.std.specs.Prelude.{◌≡◌, ◌<◌, length};

use crate::{Device, Interval, Reads};
use cvc_base::NetId;
use std::marker::Model;

/// For each net of a circuit what is known of its voltage. Contracts see it as the list of the intervals.
#[derive(Drop)]
pub struct Family {
    intervals: Vec<Interval>,
}

impl Model for Family {
    ghost use Rattle.std.specs.Prelude.{List};
    ghost use Rattle.cvc_law.specs.declared.interval.Interval.{Interval};

    ghost Value = { List Interval };

    ghost view = { λ f. f.intervals.items };
}

impl Family {
    ghost use Rattle.cvc_law.specs.Network.{IsDevice};
    ghost use Rattle.cvc_law.specs.Family.{interval_at};
    ghost use Rattle.cvc_law.specs.Least.{reads_of};

    /// The family of these intervals, one a net.
    pub fn new(intervals: Vec<Interval>) -> Family
        ensures { result ≡ intervals.items }
    {
        Family { intervals }
    }

    /// The interval of a net.
    pub fn interval(&self, n: NetId) -> Interval
        requires { n.0 < length self.now }
        ensures { result ≡ interval_at self.now n.0 }
    {
        self.intervals[n.0 as usize]
    }

    /// What it says of the device's ends and gate.
    pub fn reads(&self, device: &Device) -> Reads
        requires { IsDevice (length self.now) device.now }
        ensures { result ≡ reads_of self.now device.now }
    {
        device.reads(&self.intervals)
    }
}
