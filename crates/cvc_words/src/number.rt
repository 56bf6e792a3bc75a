//! Numbers among the words.
ghost use Rattle.std.specs.Prelude.{◌≡◌, ◌^◌, ◌<◌, ◌≤◌, IsTrue, IfOk};
ghost use Rattle.std.specs.List.{list_all};
ghost use Rattle.std.specs.Char.{is_ascii_digit};
ghost use Rattle.std.specs.Option.{SomeIff};
ghost use Rattle.std.specs.Str.Parse.{digits_value};
ghost use Rattle.cvc_words.specs.Number.{has_leading_zero, is_number, number_within};

use crate::WordFault;

fn has_leading_zero(text: &[u8]) -> bool
    ensures { result ≡ has_leading_zero text.now }
{
    matches!(text, [b'0', _, ..])
}

fn all_digits(text: &[u8]) -> bool
    ensures { result ≡ list_all is_ascii_digit text.now }
{
    text.iter().all(|byte| byte.is_ascii_digit())
}

fn is_number(text: &[u8]) -> bool
    ensures { result ≡ is_number text.now }
{
    !text.is_empty() && all_digits(text) && !has_leading_zero(text)
}

// The number that digits write, if 64 bits hold it.
fn value_of(digits: &[u8]) -> Option<u64>
    requires { IsTrue (list_all is_ascii_digit digits.now) }
    ensures { SomeIff result (digits_value 10 digits.now < 2 ^ 64) (digits_value 10 digits.now) }
{
    let mut value = 0u64;
    for digit in digits {
        value = value
            .checked_mul(10)?
            .checked_add(u64::from(*digit - b'0'))?;
    }
    Some(value)
}

/// The number that a word writes, if it does and the number lies from the least to the greatest; else `BadNumber`.
#[tactic(auto, unfolding(crate::specs::Number::number_within))]
pub(crate) fn number_within(least: u64, greatest: u64, text: &[u8]) -> Result<u64, WordFault>
    ensures number { result ≡ number_within least greatest text.now }
    ensures least { IfOk result (λ n. least ≤ n) }
    ensures greatest { IfOk result (λ n. n ≤ greatest) }
{
    if !is_number(text) {
        return Err(WordFault::BadNumber);
    }
    match value_of(text) {
        Some(value) if least <= value && value <= greatest => Ok(value),
        _ => Err(WordFault::BadNumber),
    }
}
