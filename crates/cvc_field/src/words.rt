//! How a bound is stored in a word.
ghost use Rattle.std.specs.Prelude.{◌≡◌, ◌%◌, Some, pos, neg_ℤ, ◌≤ℤ◌};
ghost use Rattle.cvc_law.specs.ReachWord.{stored, bound_in};
ghost use Rattle.cvc_field.specs.Words.{IsStoredWord};

use cvc_base::Mv;

/// A word stores millivolts as that much above 0.
const ZERO: i64 = 1_000_001;
/// The word of an unknown low. That of an unknown high is 0.
const UNKNOWN_LOW: u64 = 2_000_002;

/// The word of a low.
pub(crate) fn low_word(low: Option<Mv>) -> u64
    ensures { result ≡ stored 0 low }
{
    match low {
        None => UNKNOWN_LOW,
        Some(low) => (low.get() + ZERO) as u64,
    }
}

/// The word of a high.
pub(crate) fn high_word(high: Option<Mv>) -> u64
    ensures { result ≡ stored 1 high }
{
    match high {
        None => 0,
        Some(high) => (high.get() + ZERO) as u64,
    }
}

/// The bound that the word at an index stores: even indices are lows, odd ones highs.
pub(crate) fn bound_in(index: usize, word: u64) -> Option<Mv>
    requires { IsStoredWord (index % 2) word }
    ensures { result ≡ bound_in (index % 2) word }
{
    let unknown = if index % 2 == 0 { UNKNOWN_LOW } else { 0 };
    if word == unknown {
        None
    } else {
        Mv::new(word as i64 - ZERO)
    }
}

/// The word of a known bound.
pub(crate) fn value_word(value: i64) -> u64
    requires { (neg_ℤ (pos 1000000) ≤ℤ value) × (value ≤ℤ pos 1000000) }
    ensures { result ≡ stored 0 (Some value) }
{
    (value + ZERO) as u64
}
