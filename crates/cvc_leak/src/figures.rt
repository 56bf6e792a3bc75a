//! The numbers of a finding.
ghost use Rattle.std.specs.Prelude.{◌≡◌, pos};
ghost use Rattle.cvc_law.specs.Rules.{differ};

use cvc_base::Mv;

/// The four numbers of a finding, in millivolts.
#[derive(Clone, Copy, Debug, PartialEq, Eq)]
pub(crate) struct Figures {
    pub(crate) first: i64,
    pub(crate) second: i64,
    pub(crate) third: i64,
    pub(crate) fourth: i64,
}

/// An interval whose two bounds are known. The low may lie above the high.
#[derive(Clone, Copy, Debug, PartialEq, Eq)]
pub(crate) struct Known {
    pub(crate) low: Mv,
    pub(crate) high: Mv,
}

impl Known {
    /// Whether its bounds differ.
    pub(crate) fn varies(&self) -> bool
        ensures { result ≡ differ (Some self.now.low) (Some self.now.high) }
    {
        self.low.get() != self.high.get()
    }
}

impl Figures {
    /// The numbers of a finding that names no number.
    pub(crate) fn none() -> Figures
        ensures { result ≡ record { first = pos 0; second = pos 0; third = pos 0; fourth = pos 0 } }
    {
        Figures {
            first: 0,
            second: 0,
            third: 0,
            fourth: 0,
        }
    }

    /// The bounds of one interval, and then those of another.
    pub(crate) fn of(x: &Known, y: &Known) -> Figures
        ensures { result ≡ record { first = x.now.low; second = x.now.high; third = y.now.low; fourth = y.now.high } }
    {
        Figures {
            first: x.low.get(),
            second: x.high.get(),
            third: y.low.get(),
            fourth: y.high.get(),
        }
    }
}
