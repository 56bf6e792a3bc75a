//! Bounds in millivolts, and as reaches: how many millivolts from the floor to the ceiling a bound takes in.
ghost use Rattle.std.specs.Prelude.{◌≡◌, ◌≤◌, ◌≤ℤ◌, IfSome, IsSomeAnd};
ghost use Rattle.cvc_law.specs.Reach.{span, low_reach, high_reach, low_of, high_of};
ghost use Rattle.cvc_core.specs.Scale.{LiesBetween};

use cvc_base::Mv;

/// The low of a reach, under a ceiling.
pub(crate) fn low_of(floor: Option<Mv>, ceiling: Option<Mv>, reach: u32) -> Option<Mv>
    ensures { reach ≤ low_reach ceiling floor → result ≡ low_of ceiling reach }
{
    let ceiling = ceiling?.get();
    let _floor = floor?.get();
    if reach == 0 {
        return None;
    }
    Mv::new(ceiling - i64::from(reach - 1))
}

/// The high of a reach, over a floor.
pub(crate) fn high_of(floor: Option<Mv>, ceiling: Option<Mv>, reach: u32) -> Option<Mv>
    ensures { reach ≤ low_reach ceiling floor → result ≡ high_of floor reach }
{
    let _ceiling = ceiling?.get();
    let floor = floor?.get();
    if reach == 0 {
        return None;
    }
    Mv::new(floor + i64::from(reach - 1))
}

/// The value as a voltage. It is one, since it lies from a floor to a ceiling.
pub(crate) fn voltage(floor: Option<Mv>, ceiling: Option<Mv>, value: Option<i64>) -> Option<Mv>
    requires { IfSome value (LiesBetween floor ceiling) }
    ensures { result ≡ value }
{
    let _floor = floor?.get();
    let _ceiling = ceiling?.get();
    Mv::new(value?)
}

/// How many millivolts there are from one voltage to another.
fn span(low: Mv, high: Mv) -> u32
    requires { low ≤ℤ high }
    ensures { result ≡ span low high }
{
    (high.get() - low.get() + 1) as u32
}

/// The reach of a low, under a ceiling.
pub(crate) fn low_reach(ceiling: Option<Mv>, low: Option<Mv>) -> u32
    requires { IfSome low (λ v. IsSomeAnd ceiling (λ c. v ≤ℤ c)) }
    ensures { result ≡ low_reach ceiling low }
{
    match (ceiling, low) {
        (Some(ceiling), Some(low)) => span(low, ceiling),
        _ => 0,
    }
}

/// The reach of a high, over a floor.
pub(crate) fn high_reach(floor: Option<Mv>, high: Option<Mv>) -> u32
    requires { IfSome high (λ v. IsSomeAnd floor (λ f. f ≤ℤ v)) }
    ensures { result ≡ high_reach floor high }
{
    match (floor, high) {
        (Some(floor), Some(high)) => span(floor, high),
        _ => 0,
    }
}
