//! Voltages.
ghost use Rattle.std.specs.Prelude.{◌≡◌, pos, neg_ℤ, ◌≤ℤ◌, SomeIff};

use std::marker::Model;

/// A voltage in whole millivolts, from -1,000,000 to 1,000,000. Contracts see it as that number.
#[derive(Clone, Copy, Debug, PartialEq, Eq, PartialOrd, Ord, Hash)]
pub struct Mv {
    millivolts: i32,
}

impl Model for Mv {
    ghost use Rattle.std.specs.Prelude.{ℤ, pos, neg_ℤ, ◌≤ℤ◌};

    ghost Value = { ℤ };

    ghost view = { λ v. v.millivolts };

    ghost invariant = { λ v. (neg_ℤ (pos 1000000) ≤ℤ v.millivolts) × (v.millivolts ≤ℤ pos 1000000) };

    ghost inverse = { λ z. record { millivolts = z } };
}

impl Mv {
    /// No voltage.
    pub const ZERO: Mv = Mv { millivolts: 0 };

    /// The voltage of `v` millivolts: `None` exactly where it lies outside -1,000,000 to 1,000,000.
    pub fn new(v: i64) -> Option<Mv>
        ensures { SomeIff result ((neg_ℤ (pos 1000000) ≤ℤ v) × (v ≤ℤ pos 1000000)) v }
    {
        if (-1_000_000..=1_000_000).contains(&v) {
            Some(Mv {
                millivolts: v as i32,
            })
        } else {
            None
        }
    }

    /// The millivolts.
    pub fn get(&self) -> i64
        ensures same { result ≡ self.now }
        ensures low { neg_ℤ (pos 1000000) ≤ℤ result }
        ensures high { result ≤ℤ pos 1000000 }
    {
        i64::from(self.millivolts)
    }
}
