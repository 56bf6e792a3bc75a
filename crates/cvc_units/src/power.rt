ghost use Rattle.std.specs.Prelude.{◌≡◌, ◌≤◌, [], ◌∷◌, IfSome, IsTrue, min, nat_eq, option_map};
ghost use Rattle.std.specs.List.{starts_with};
ghost use Rattle.std.specs.Str.{str_to_ascii_lowercase};
ghost use Rattle.std.specs.Str.Parse.{digits_value};
ghost use Rattle.cvc_units.specs.Split.{are_digits};
ghost use Rattle.cvc_units.specs.Number.{exponent_scale, scale_of};
ghost use Rattle.cvc_units.specs.Reading.{power_of};

/// Ten to the power `up`, divided by ten to the power `down`.
#[derive(Clone, Copy)]
pub(crate) struct Power {
    pub up: u128,
    pub down: u128,
}

const fn raised(up: u128) -> Power
    ensures { result ≡ record { up = up; down = 0 } }
{
    Power { up, down: 0 }
}

const fn lowered(down: u128) -> Power
    ensures { result ≡ record { up = 0; down = down } }
{
    Power { up: 0, down }
}

/// Whether the text begins with these two small letters, without regard to case.
fn begins_with(text: &[u8], first: u8, second: u8) -> bool
    ensures { result ≡ starts_with nat_eq (str_to_ascii_lowercase text.now) (first ∷ second ∷ []) }
{
    match text {
        [a, b, ..] => a.to_ascii_lowercase() == first && b.to_ascii_lowercase() == second,
        _ => false,
    }
}

/// The scale of letters of which the first is an `m`: mega, mil or milli.
#[tactic(auto, unfolding(crate::specs::Number::scale_of))]
fn scale_after_m(rest: &[u8]) -> Option<Power>
    ensures scale { option_map power_of result ≡ scale_of (109 ∷ rest.now) }
    ensures small { IfSome result (λ p. (p.up ≤ 12) × (p.down ≤ 15)) }
{
    if begins_with(rest, b'e', b'g') {
        return Some(raised(6));
    }
    if begins_with(rest, b'i', b'l') {
        return None;
    }
    Some(lowered(3))
}

/// The power of ten that the letters after a number stand for, or `None` where they make it no number.
#[tactic(auto, unfolding(crate::specs::Number::scale_of))]
pub(crate) fn scale_of(letters: &[u8]) -> Option<Power>
    ensures scale { option_map power_of result ≡ scale_of letters.now }
    ensures small { IfSome result (λ p. (p.up ≤ 12) × (p.down ≤ 15)) }
{
    match letters {
        [b'a' | b'A' | b'x' | b'X', ..] => None,
        [b'f' | b'F', ..] => Some(lowered(15)),
        [b'p' | b'P', ..] => Some(lowered(12)),
        [b'n' | b'N', ..] => Some(lowered(9)),
        [b'u' | b'U', ..] => Some(lowered(6)),
        [b'm' | b'M', rest @ ..] => scale_after_m(rest),
        [b'k' | b'K', ..] => Some(raised(3)),
        [b'g' | b'G', ..] => Some(raised(9)),
        [b't' | b'T', ..] => Some(raised(12)),
        _ => Some(raised(0)),
    }
}

/// A size from which on every exponent does the same: no text in memory is so long.
const GREATEST_EXPONENT: u128 = 100_000_000_000_000_000_000;

/// The number that the digits write, or the greatest exponent where that is less.
fn exponent_size(digits: &[u8]) -> u128
    requires { IsTrue (are_digits digits.now) }
    ensures { result ≡ min (digits_value 10 digits.now) GREATEST_EXPONENT }
{
    let mut size = 0;
    for digit in digits {
        size = (size * 10 + u128::from(*digit - b'0')).min(GREATEST_EXPONENT);
    }
    size
}

/// The power of ten that an exponent of these digits stands for, up to the greatest exponent.
pub(crate) fn exponent_power(negative: bool, digits: &[u8]) -> Power
    requires { IsTrue (are_digits digits.now) }
    ensures { power_of result ≡ exponent_scale negative (min (digits_value 10 digits.now) GREATEST_EXPONENT) }
{
    let size = exponent_size(digits);
    if negative {
        lowered(size)
    } else {
        raised(size)
    }
}
