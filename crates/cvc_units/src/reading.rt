ghost use Rattle.std.specs.Prelude.{◌≡◌, ◌≢◌, ◌<◌, ◌≤◌, ◌^◌, IfOk, unsigned_abs};
ghost use Rattle.cvc_units.specs.Split.{IsSplit, Split};
ghost use Rattle.cvc_units.specs.Number.{Scaled, exceeds, millivolts_of, millivolts_of_split, number_of, number_of_split, signed};
ghost use Rattle.cvc_units.specs.Reading.{AreWellFormed, IsMagnitude, Measures, held, value_of_parts};

use crate::fault::NumFault;
use crate::magnitude::{Magnitude, magnitude_of};
use crate::pieces::{Pieces, split};
use crate::power::{Power, exponent_power, scale_of};

/// A count of units is a value times 10 to this power.
const UNITS: u128 = 24;

/// The count of 1000 volts.
const GREATEST_VOLTAGE: u128 = 1_000_000_000_000_000_000_000_000_000;

/// The count of one millivolt.
const MILLIVOLT: u128 = 1_000_000_000_000_000_000_000;

/// The value that the pieces of a number stand for.
fn value_of(pieces: Pieces<'_>) -> Result<Magnitude, NumFault>
    requires { AreWellFormed (held pieces) }
    ensures { Measures result (value_of_parts (held pieces.entry)) }
{
    let Some(scale) = scale_of(pieces.letters) else {
        return Err(NumFault::Shape);
    };
    let exponent = exponent_power(pieces.exponent.negative, pieces.exponent.digits);
    let power = Power {
        up: UNITS + exponent.up + scale.up,
        down: pieces.fraction.len() as u128 + exponent.down + scale.down,
    };
    magnitude_of(pieces.digits, pieces.fraction, power)
}

fn signed(negative: bool, count: u128) -> i128
    requires { count < 10 ^ 36 }
    ensures { result ≡ signed negative count }
{
    let count = count as i128;
    if negative { -count } else { count }
}

/// Whether a magnitude in volts is more than 1000 volts.
fn exceeds_greatest(magnitude: Magnitude) -> bool
    ensures { (v : Scaled) → IsMagnitude magnitude v → result ≡ exceeds v (10 ^ 27) }
{
    if magnitude.is_whole {
        magnitude.count > GREATEST_VOLTAGE
    } else {
        magnitude.count >= GREATEST_VOLTAGE
    }
}

#[tactic(auto, unfolding(crate::specs::Number::number_of))]
fn number(text: &[u8]) -> Result<i128, NumFault>
    ensures { result ≡ number_of text.now }
{
    let Some(pieces) = split(text) else {
        return Err(NumFault::Shape);
    };
    let magnitude = value_of(pieces)?;
    Ok(signed(pieces.negative, magnitude.count))
}

#[tactic(auto, unfolding(crate::specs::Number::millivolts_of))]
fn millivolts(text: &[u8]) -> Result<i64, NumFault>
    ensures { result ≡ millivolts_of text.now }
{
    let Some(pieces) = split(text) else {
        return Err(NumFault::Shape);
    };
    let magnitude = value_of(pieces)?;
    if exceeds_greatest(magnitude) {
        return Err(NumFault::TooLarge);
    }
    if magnitude.count % MILLIVOLT != 0 {
        return Err(NumFault::TooFine);
    }
    Ok(signed(pieces.negative, magnitude.count / MILLIVOLT) as i64)
}

/// The number of a text, in units of 10 to the power -24. What is below one unit is dropped, towards zero.
///
/// A text that is no number is `Shape`. A number that is 10 to the power 12 or more either way is `TooLarge`. Nothing is `TooFine`.
pub fn read_number(text: &[u8]) -> Result<i128, NumFault>
    ensures number { result ≡ number_of text.now }

    // The same of its one split, and `Shape` where it has none.
    ensures split { (p : Split) → IsSplit text.now p → result ≡ number_of_split p }
    ensures no_split { ((p : Split) → ¬ IsSplit text.now p) → result ≡ Err NumFault.Shape }

    ensures small { IfOk result (λ n. unsigned_abs n < 10 ^ 36) }
    ensures never_too_fine { result ≢ Err NumFault.TooFine }
{
    number(text)
}

/// The millivolts of a text that is a number of volts.
///
/// A text that is no number is `Shape`. More than 1000 volts either way is `TooLarge`, by however little. A voltage whose count of
/// units, as `read_number` answers it, is no whole number of millivolts is `TooFine`.
pub fn read_mv(text: &[u8]) -> Result<i64, NumFault>
    ensures millivolts { result ≡ millivolts_of text.now }

    // The same of its one split, and `Shape` where it has none.
    ensures split { (p : Split) → IsSplit text.now p → result ≡ millivolts_of_split p }
    ensures no_split { ((p : Split) → ¬ IsSplit text.now p) → result ≡ Err NumFault.Shape }

    ensures small { IfOk result (λ v. unsigned_abs v ≤ 1000000) }
{
    millivolts(text)
}
