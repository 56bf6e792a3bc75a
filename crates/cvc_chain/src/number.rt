//! Numbers among the words of a log's text.
ghost use Rattle.std.specs.Prelude.{◌≡◌, ◌^◌, ◌<◌, ◌≤◌, IfSome, IsTrue};
ghost use Rattle.std.specs.List.{list_all};
ghost use Rattle.std.specs.Char.{is_ascii_digit};
ghost use Rattle.std.specs.Option.{SomeIff};
ghost use Rattle.std.specs.Str.Parse.{digits_value};
ghost use Rattle.cvc_words.specs.Number.{has_leading_zero, is_number};
ghost use Rattle.cvc_chain.specs.Reading.{number_below, voltage_of};

use cvc_base::Mv;

fn has_leading_zero(word: &[u8]) -> bool
    ensures { result ≡ has_leading_zero word.now }
{
    matches!(word, [b'0', _, ..])
}

fn all_digits(word: &[u8]) -> bool
    ensures { result ≡ list_all is_ascii_digit word.now }
{
    word.iter().all(|byte| byte.is_ascii_digit())
}

fn is_number(word: &[u8]) -> bool
    ensures { result ≡ is_number word.now }
{
    !word.is_empty() && all_digits(word) && !has_leading_zero(word)
}

// The number that digits write, if 64 bits hold it.
fn value_of(digits: &[u8]) -> Option<u64>
    requires { IsTrue (list_all is_ascii_digit digits.now) }
    ensures { SomeIff result (digits_value 10 digits.now < 2 ^ 64) (digits_value 10 digits.now) }
{
    let mut value = 0u64;
    for digit in digits {
        value = value
            .checked_mul(10)?
            .checked_add(u64::from(*digit - b'0'))?;
    }
    Some(value)
}

/// The number that a word writes in decimal without a leading zero, if it does and the number is below this one.
pub(crate) fn number_below(end: u64, word: &[u8]) -> Option<u64>
    ensures number { result ≡ number_below end word.now }
    ensures below { IfSome result (λ n. n < end) }
{
    if !is_number(word) {
        return None;
    }
    value_of(word).filter(|value| *value < end)
}

/// The voltage that a word writes in millivolts, if it does: `-` stands only before a number that isn't 0.
pub(crate) fn voltage_of(word: &[u8]) -> Option<Mv>
    ensures { result ≡ voltage_of word.now }
{
    match word {
        [b'-', digits @ ..] => {
            let size = number_below(1_000_001, digits)?;
            if size == 0 {
                return None;
            }
            Mv::new(-(size as i64))
        }
        digits => Mv::new(number_below(1_000_001, digits)? as i64),
    }
}
