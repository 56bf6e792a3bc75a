//! How far voltages can lie apart, and where that exceeds a limit.
ghost use Rattle.std.specs.Prelude.{◌≡◌};
ghost use Rattle.cvc_law.specs.Rules.{difference, greater_of, spread, exceeding};
ghost use Rattle.cvc_bias.specs.Measured.{numbers_of};

use cvc_base::Mv;
use cvc_law::Interval;

/// A limit and the difference that was found above it, both in millivolts.
#[derive(Clone, Copy, Debug, PartialEq, Eq)]
pub(crate) struct Excess {
    pub(crate) limit: i64,
    pub(crate) found: i64,
}

/// How far a high lies above a low, where both are known.
pub(crate) fn difference(high: Option<Mv>, low: Option<Mv>) -> Option<i64>
    ensures { result ≡ difference high low }
{
    let high = high?.get();
    let low = low?.get();
    Some(high - low)
}

/// The greater of those that are there.
pub(crate) fn greater_of(x: Option<i64>, y: Option<i64>) -> Option<i64>
    ensures { result ≡ greater_of x y }
{
    match (x, y) {
        (Some(x), Some(y)) => Some(x.max(y)),
        (Some(x), None) => Some(x),
        (None, y) => y,
    }
}

/// How far two nets can be apart, either way round.
pub(crate) fn spread(x: &Interval, y: &Interval) -> Option<i64>
    ensures { result ≡ spread x.now y.now }
{
    greater_of(difference(x.high, y.low), difference(y.high, x.low))
}

/// The limit and what was found, where that exceeds the limit.
pub(crate) fn exceeding(limit: Mv, found: Option<i64>) -> Option<Excess>
    ensures { numbers_of result ≡ exceeding (Some limit) found }
{
    let limit = limit.get();
    let found = found?;
    if limit < found {
        Some(Excess { limit, found })
    } else {
        None
    }
}
