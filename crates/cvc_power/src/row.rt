//! One row of a power file, judged by itself.
ghost use Rattle.std.specs.Prelude.{◌≡◌, ◌≤ℤ◌, IfOk, MatchResult};
ghost use Rattle.cvc_rows.specs.Tokens.{texts_of, voltage_of};
ghost use Rattle.cvc_power.specs.Rows.{exactly, between, span_of as span_in};

use cvc_base::{Cause, Mv, Text, Token};
use cvc_rows::{is_word, read_voltage};

/// A net with a declared voltage: it lies between `low` and `high`, both included. `line` is the row's line in its file, from 1.
#[derive(Debug, Drop)]
pub struct PowerRow {
    pub name: Text,
    pub low: Mv,
    pub high: Mv,
    pub line: u32,
}

/// The lowest and the highest voltage of a row.
#[derive(Clone, Copy, Debug, PartialEq, Eq)]
pub struct Span {
    pub low: Mv,
    pub high: Mv,
}

fn one_voltage(text: &[u8]) -> Result<Span, Cause>
    ensures span { result ≡ exactly (voltage_of text.now) }
    ensures ordered { IfOk result (λ span. span.low ≤ℤ span.high) }
{
    let only = read_voltage(text)?;
    Ok(Span {
        low: only,
        high: only,
    })
}

fn two_voltages(min: &[u8], max: &[u8]) -> Result<Span, Cause>
    ensures span { result ≡ between (voltage_of min.now) (voltage_of max.now) }
    ensures ordered { IfOk result (λ span. span.low ≤ℤ span.high) }
{
    let low = read_voltage(min)?;
    let high = read_voltage(max)?;
    if low.get() > high.get() {
        return Err(Cause::MinAboveMax);
    }
    Ok(Span { low, high })
}

/// The voltages of a row whose tokens behind the name of its net are these: `power V`, or `input MIN MAX` with `MIN` at most `MAX`, the
/// words without regard to case. Its causes are, in this order, `BadRow`, `BadVoltage` and `MinAboveMax`.
pub fn span_of(tokens: &[Token]) -> Result<Span, Cause>
    ensures span { result ≡ span_in (texts_of tokens.now) }
    ensures ordered { IfOk result (λ span. span.low ≤ℤ span.high) }
{
    match tokens {
        [word, only] if is_word(word.text.bytes(), b"power") => one_voltage(only.text.bytes()),
        [word, min, max] if is_word(word.text.bytes(), b"input") => {
            two_voltages(min.text.bytes(), max.text.bytes())
        }
        _ => Err(Cause::BadRow),
    }
}
