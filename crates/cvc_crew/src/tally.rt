//! How workers came to their devices.

/// How many turns of each kind workers made. A number that would pass the greatest stays there.
#[derive(Clone, Copy, Debug, PartialEq, Eq)]
pub struct Tally {
    /// Turns that looked for a device among all marks.
    pub scans: u64,
    /// Turns on a device from the worker's own deque.
    pub own: u64,
    /// Turns on a device from the deque of another worker.
    pub stolen: u64,
}

impl Tally {
    /// No turn at all.
    pub(crate) const NONE: Tally = Tally {
        scans: 0,
        own: 0,
        stolen: 0,
    };

    /// The turns of both.
    pub(crate) fn plus(self, other: Tally) -> Tally {
        Tally {
            scans: self.scans.saturating_add(other.scans),
            own: self.own.saturating_add(other.own),
            stolen: self.stolen.saturating_add(other.stolen),
        }
    }

    /// One more turn that looked among all marks.
    pub(crate) fn count_scan(&mut self) {
        self.scans = self.scans.saturating_add(1);
    }

    /// One more turn on a device of the worker's own.
    pub(crate) fn count_own(&mut self) {
        self.own = self.own.saturating_add(1);
    }

    /// One more turn on a stolen device.
    pub(crate) fn count_stolen(&mut self) {
        self.stolen = self.stolen.saturating_add(1);
    }
}
