//! The range of the declared voltages.
ghost use Rattle.std.specs.Prelude.{◌≡◌, ◌≤ℤ◌, pos, neg_ℤ, IfSome};
ghost use Rattle.cvc_law.specs.Network.{lesser, greater, least_low, greatest_high};

use crate::Fixed;
use cvc_base::Mv;

/// The lesser of a voltage and another, if there is another.
fn lesser(x: Mv, other: Option<Mv>) -> Option<Mv>
    ensures lesser { result ≡ lesser x other }
    ensures in_million { IfSome other (λ y. neg_ℤ (pos 1000000) ≤ℤ y) → IfSome result (λ y. neg_ℤ (pos 1000000) ≤ℤ y) }
{
    match other {
        Some(y) if y.get() < x.get() => Some(y),
        _ => Some(x),
    }
}

/// The greater of a voltage and another, if there is another.
fn greater(x: Mv, other: Option<Mv>) -> Option<Mv>
    ensures greater { result ≡ greater x other }
    ensures in_million { IfSome other (λ y. y ≤ℤ pos 1000000) → IfSome result (λ y. y ≤ℤ pos 1000000) }
{
    match other {
        Some(y) if x.get() <= y.get() => Some(y),
        _ => Some(x),
    }
}

/// The least declared low.
pub(crate) fn lowest(fixed: &[Option<Fixed>]) -> Option<Mv>
    ensures least { result ≡ least_low fixed.now }
    ensures in_million { IfSome result (λ v. neg_ℤ (pos 1000000) ≤ℤ v) }
{
    let mut floor = None;
    for declared in fixed {
        if let Some(declared) = declared {
            floor = lesser(declared.low, floor);
        }
    }
    floor
}

/// The greatest declared high.
pub(crate) fn highest(fixed: &[Option<Fixed>]) -> Option<Mv>
    ensures greatest { result ≡ greatest_high fixed.now }
    ensures in_million { IfSome result (λ v. v ≤ℤ pos 1000000) }
{
    let mut ceiling = None;
    for declared in fixed {
        if let Some(declared) = declared {
            ceiling = greater(declared.high, ceiling);
        }
    }
    ceiling
}
