//! Intervals of voltages.

use cvc_base::Mv;

/// What is known of a net's voltage, in millivolts. Either bound may be unknown by itself, and the low may lie above the high.
#[derive(Clone, Copy, Debug, PartialEq, Eq)]
pub struct Interval {
    pub low: Option<Mv>,
    pub high: Option<Mv>,
}

/// What a net is declared at, in millivolts.
#[derive(Clone, Copy, Debug, PartialEq, Eq)]
pub struct Fixed {
    pub low: Mv,
    pub high: Mv,
}

/// What is known of a device's ends `a` and `b` and, for a MOS, of its gate `g`.
#[derive(Clone, Copy, Debug, PartialEq, Eq)]
pub struct Reads {
    pub a: Interval,
    pub b: Interval,
    pub g: Interval,
}
