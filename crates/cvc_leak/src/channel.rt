//! What a MOS may let through between its drain and its source, though its gate is to turn it off.
ghost use Rattle.std.specs.Prelude.{◌≡◌};
ghost use Rattle.cvc_law.specs.Rules.{lesser_of, greater_of, stays_on, leak_of};
ghost use Rattle.cvc_leak.specs.Figures.{numbers_of};

use crate::figures::{Figures, Known};
use cvc_base::{Kind, Mv};
use cvc_law::Interval;

/// The lesser of those that are known.
fn lesser_of(x: Option<Mv>, y: Option<Mv>) -> Option<Mv>
    ensures { result ≡ lesser_of x y }
{
    match (x, y) {
        (Some(x), Some(y)) if y.get() < x.get() => Some(y),
        (Some(x), _) => Some(x),
        (None, y) => y,
    }
}

/// The greater of those that are known.
fn greater_of(x: Option<Mv>, y: Option<Mv>) -> Option<Mv>
    ensures { result ≡ greater_of x y }
{
    match (x, y) {
        (Some(x), Some(y)) if x.get() <= y.get() => Some(y),
        (Some(x), _) => Some(x),
        (None, y) => y,
    }
}

/// What is known of a channel: the least of its ends' known lows, and the greatest of their known highs.
pub(crate) fn channel_of(drain: &Interval, source: &Interval) -> Interval
    ensures low { result.low ≡ lesser_of drain.now.low source.now.low }
    ensures high { result.high ≡ greater_of drain.now.high source.now.high }
{
    Interval {
        low: lesser_of(drain.low, source.low),
        high: greater_of(drain.high, source.high),
    }
}

/// Whether the gate doesn't reach far enough to turn the MOS off: its low less the threshold lies above the low of an nmos's channel,
/// or its high and the threshold lie below the high of a pmos's.
fn stays_on(kind: Kind, threshold: Mv, gate: &Known, channel: &Known) -> bool
    ensures { result ≡ stays_on kind threshold gate.now.low gate.now.high channel.now.low channel.now.high }
{
    match kind {
        Kind::Nmos => channel.low.get() < gate.low.get() - threshold.get(),
        Kind::Pmos => gate.high.get() + threshold.get() < channel.high.get(),
        Kind::Resistor | Kind::Diode | Kind::Capacitor | Kind::Inductor | Kind::Bipolar => false,
    }
}

/// The bounds of the gate and of the channel, where all are known, both vary, and the MOS may leak at this threshold.
pub(crate) fn leak_of(
    kind: Kind,
    threshold: Mv,
    gate: &Interval,
    channel: &Interval,
) -> Option<Figures>
    ensures { numbers_of result ≡ leak_of kind threshold gate.now.low gate.now.high channel.now.low channel.now.high }
{
    let gate = Known {
        low: gate.low?,
        high: gate.high?,
    };
    let channel = Known {
        low: channel.low?,
        high: channel.high?,
    };
    if gate.varies() && channel.varies() && stays_on(kind, threshold, &gate, &channel) {
        Some(Figures::of(&gate, &channel))
    } else {
        None
    }
}
