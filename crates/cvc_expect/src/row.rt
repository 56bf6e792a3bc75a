//! One row of an expected file, judged by itself.
ghost use Rattle.std.specs.Prelude.{◌≡◌};
ghost use Rattle.cvc_expect.specs.Rows.{bound_of, row_of};
ghost use Rattle.cvc_rows.specs.Refusing.{Answers};

use cvc_base::{Cause, ItemList, Line, Mv, Text};
use cvc_rows::{Refused, read_voltage};
use std::alloc::Global;

/// What is expected of a bound.
#[derive(Clone, Copy, Debug, PartialEq, Eq)]
pub enum Bound {
    /// Anything.
    Any,
    /// That it is unknown.
    Unknown,
    /// That it is this voltage, in millivolts.
    At(Mv),
}

/// What is expected of a net. `line` is the row's line in its file, from 1.
#[derive(Debug, Drop)]
pub struct ExpectRow {
    pub name: Text,
    pub low: Bound,
    pub high: Bound,
    pub line: u32,
}

/// The rows of an expected file, in order.
pub type Expected = ItemList<ExpectRow>;

// What a text says of a bound: `*`, `?` or a voltage.
fn read_bound(text: &[u8]) -> Result<Bound, Cause>
    ensures { result ≡ bound_of text.now }
{
    if text == b"*".as_slice() {
        return Ok(Bound::Any);
    }
    if text == b"?".as_slice() {
        return Ok(Bound::Unknown);
    }
    match read_voltage(text) {
        Ok(voltage) => Ok(Bound::At(voltage)),
        Err(cause) => Err(cause),
    }
}

/// The row of a line, by itself. Its causes are `BadRow` and, from the left, `BadVoltage`.
pub(crate) fn read_row(alloc: Global, line: &Line) -> Result<ExpectRow, Refused<Cause>>
    ensures { Answers result (row_of line.now) }
{
    let [name, low, high] = line.tokens.as_slice() else {
        return Err(Refused::At(Cause::BadRow));
    };
    let low = read_bound(low.text.bytes())?;
    let high = read_bound(high.text.bytes())?;
    Ok(ExpectRow {
        name: Text::of(alloc, name.text.bytes())?,
        low,
        high,
        line: line.first,
    })
}
