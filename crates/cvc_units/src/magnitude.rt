ghost use Rattle.std.specs.Prelude.{◌≡◌, ◌+◌, ◌*◌, ◌-◌, ◌^◌, ◌<◌, ◌≤◌, ◌++◌, ◌==◌, length, take, drop, IsTrue};
ghost use Rattle.std.specs.List.{list_all};
ghost use Rattle.std.specs.Str.Parse.{digits_value, digits_value_after};
ghost use Rattle.cvc_units.specs.Split.{are_digits};
ghost use Rattle.cvc_units.specs.Number.{limited};
ghost use Rattle.cvc_units.specs.Reading.{CountsTo, Measures, scaled_by};

use crate::fault::NumFault;
use crate::power::Power;

/// A magnitude in units of 10 to the power -24.
#[derive(Clone, Copy)]
pub(crate) struct Magnitude {
    /// The whole units.
    pub count: u128,
    /// Whether nothing but the whole units is there.
    pub is_whole: bool,
}

/// The first count that is too large.
const LIMIT: u128 = 1_000_000_000_000_000_000_000_000_000_000_000_000;

/// The powers of 10 up to the limit.
static TENS: [u128; 37] = [
    1,
    10,
    100,
    1_000,
    10_000,
    100_000,
    1_000_000,
    10_000_000,
    100_000_000,
    1_000_000_000,
    10_000_000_000,
    100_000_000_000,
    1_000_000_000_000,
    10_000_000_000_000,
    100_000_000_000_000,
    1_000_000_000_000_000,
    10_000_000_000_000_000,
    100_000_000_000_000_000,
    1_000_000_000_000_000_000,
    10_000_000_000_000_000_000,
    100_000_000_000_000_000_000,
    1_000_000_000_000_000_000_000,
    10_000_000_000_000_000_000_000,
    100_000_000_000_000_000_000_000,
    1_000_000_000_000_000_000_000_000,
    10_000_000_000_000_000_000_000_000,
    100_000_000_000_000_000_000_000_000,
    1_000_000_000_000_000_000_000_000_000,
    10_000_000_000_000_000_000_000_000_000,
    100_000_000_000_000_000_000_000_000_000,
    1_000_000_000_000_000_000_000_000_000_000,
    10_000_000_000_000_000_000_000_000_000_000,
    100_000_000_000_000_000_000_000_000_000_000,
    1_000_000_000_000_000_000_000_000_000_000_000,
    10_000_000_000_000_000_000_000_000_000_000_000,
    100_000_000_000_000_000_000_000_000_000_000_000,
    1_000_000_000_000_000_000_000_000_000_000_000_000,
];

/// The number that the digits write after those of `count`, or `TooLarge` from the limit on.
fn append(count: u128, digits: &[u8]) -> Result<u128, NumFault>
    requires below { count < LIMIT }
    requires digits { IsTrue (are_digits digits.now) }
    ensures { CountsTo result (digits_value_after 10 count digits.now) }
{
    let mut count = count;
    for digit in digits {
        if count >= LIMIT / 10 {
            return Err(NumFault::TooLarge);
        }
        count = count * 10 + u128::from(*digit - b'0');
    }
    Ok(count)
}

/// The count times 10 to the power `zeros`, or `TooLarge` from the limit on.
fn append_zeros(count: u128, zeros: u128) -> Result<u128, NumFault>
    requires { count < LIMIT }
    ensures { CountsTo result (count * 10 ^ zeros) }
{
    if count == 0 {
        return Ok(0);
    }
    if zeros > 36 {
        return Err(NumFault::TooLarge);
    }
    let zeros = zeros as usize;
    if count >= ten_to(36 - zeros) {
        return Err(NumFault::TooLarge);
    }
    Ok(count * ten_to(zeros))
}

/// 10 to the power `zeros`.
fn ten_to(zeros: usize) -> u128
    requires { zeros ≤ 36 }
    ensures { result ≡ 10 ^ zeros }
{
    TENS[zeros]
}

/// Whether all the digits are zeros.
fn are_zeros(digits: &[u8]) -> bool
    ensures { result ≡ list_all (λ digit. digit == 48) digits.now }
{
    digits.iter().all(|digit| *digit == b'0')
}

/// Whether all the digits of two texts are zeros.
fn both_are_zeros(digits: &[u8], more: &[u8]) -> bool
    ensures { result ≡ list_all (λ digit. digit == 48) (digits.now ++ more.now) }
{
    are_zeros(digits) && are_zeros(more)
}

/// The first bytes, at most `len`, and the rest.
fn split_at_most(text: &[u8], len: u128) -> (&[u8], &[u8])
    ensures front { result.0.now ≡ take len text.now }
    ensures back { result.1.now ≡ drop len text.now }
{
    if len < text.len() as u128 {
        text.split_at(len as usize)
    } else {
        text.split_at(text.len())
    }
}

/// The number that two texts of digits write together, times 10 to the power `zeros`, or `TooLarge` from the limit on.
fn count_of(front: &[u8], more: &[u8], zeros: u128) -> Result<u128, NumFault>
    requires front { IsTrue (are_digits front.now) }
    requires more { IsTrue (are_digits more.now) }
    ensures { CountsTo result (digits_value 10 (front.now ++ more.now) * 10 ^ zeros) }
{
    let count = append(append(0, front)?, more)?;
    append_zeros(count, zeros)
}

/// All the digits as one whole number, times a power of ten. A digit that counts for less than one unit is only looked at.
pub(crate) fn magnitude_of(
    digits: &[u8],
    fraction: &[u8],
    power: Power,
) -> Result<Magnitude, NumFault>
    requires digits { IsTrue (are_digits digits.now) }
    requires fraction { IsTrue (are_digits fraction.now) }
    requires up { power.up < 2 ^ 100 }
    ensures { Measures result (limited (scaled_by (digits_value 10 (digits.now ++ fraction.now)) power)) }
{
    let len = digits.len() as u128;
    let kept = (len + fraction.len() as u128 + power.up).saturating_sub(power.down);
    let (front, dropped) = split_at_most(digits, kept);
    let (more, also_dropped) = split_at_most(fraction, kept.saturating_sub(len));
    let count = count_of(front, more, power.up.saturating_sub(power.down))?;
    let is_whole = both_are_zeros(dropped, also_dropped);
    Ok(Magnitude { count, is_whole })
}
