//! The voltages that the value of a key writes.
ghost use Rattle.std.specs.Prelude.{◌≡◌, ◌<◌, ◌≤ℤ◌, length, pos, IfOk, IfSome};
ghost use Rattle.std.specs.List.{position_from};
ghost use Rattle.cvc_model.specs.Settings.{is_colon, both_voltages as both_of, limit_in, thresholds_in};

use cvc_base::{Cause, Mv};
use cvc_rows::read_voltage;

fn both_voltages(first: &[u8], second: &[u8]) -> Result<(Mv, Mv), Cause>
    ensures { result ≡ both_of first.now second.now }
{
    Ok((read_voltage(first)?, read_voltage(second)?))
}

fn colon_place(text: &[u8]) -> Option<usize>
    ensures place { result ≡ position_from is_colon 0 text.now }
    ensures within { IfSome result (λ place. place < length text.now) }
{
    text.iter().position(|byte| *byte == b':')
}

// The voltages of a threshold: two around the first `:`, or one that counts twice.
pub(crate) fn thresholds(text: &[u8]) -> Result<(Mv, Mv), Cause>
    ensures { result ≡ thresholds_in text.now }
{
    if let Some(place) = colon_place(text) {
        return both_voltages(&text[..place], &text[place + 1..]);
    }
    let voltage = read_voltage(text)?;
    Ok((voltage, voltage))
}

// The voltage of every other key, which is not negative.
pub(crate) fn limit(text: &[u8]) -> Result<Mv, Cause>
    ensures limit { result ≡ limit_in text.now }
    ensures not_negative { IfOk result (λ limit. pos 0 ≤ℤ limit) }
{
    let limit = read_voltage(text)?;
    if limit.get() < 0 {
        return Err(Cause::Negative);
    }
    Ok(limit)
}
