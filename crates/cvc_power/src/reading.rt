//! Whole power files.
ghost use Rattle.std.specs.Prelude.{◌≡◌, ◌<◌, ◌^◌, [], ◌∷◌, ◌++◌, All, Ok, Err, IfOk, length, map, not};
ghost use Rattle.std.specs.Bool.{OnTrue};
ghost use Rattle.cvc_base.specs.Answers.{IfAt};
ghost use Rattle.cvc_names.specs.Names.{is_among};
ghost use Rattle.cvc_rows.specs.Refusing.{Answers};
ghost use Rattle.cvc_power.specs.Power.{IsOrdered, power_of, row_of};

use crate::row::{PowerRow, span_of};
use cvc_base::{Cause, FileKind, ItemList, Line, Refusal, Text};
use cvc_names::Names;
use cvc_rows::{Judge, Refused, read_rows};
use std::alloc::Global;

/// The rows of a power file, in order. No two have one name.
pub type Power = ItemList<PowerRow>;

// The row of a line, by itself.
fn read_row(alloc: Global, line: &Line) -> Result<PowerRow, Refused<Cause>>
    ensures row { Answers result (row_of line.now) }
    ensures ordered { IfOk result IsOrdered }
{
    let [name, form @ ..] = line.tokens.as_slice() else {
        return Err(Refused::At(Cause::BadRow));
    };
    let span = span_of(form)?;
    Ok(PowerRow {
        name: Text::of(alloc, name.text.bytes())?,
        low: span.low,
        high: span.high,
        line: line.first,
    })
}

// A judge of power rows, with the names of the rows so far.
#[derive(Drop)]
struct PowerJudge {
    names: Names,
}

impl Judge for PowerJudge {
    ghost use Rattle.std.specs.Prelude.{◌≡◌, map};
    ghost use Rattle.cvc_power.specs.Power.{IsOrdered, name_of, verdict};
    ghost use Rattle.cvc_rows.specs.Rows.{as_written};

    type Row = PowerRow;

    type Cause = Cause;

    ghost verdict = { λ _. verdict };

    ghost told = { as_written };

    ghost knows = { λ judge rows. judge.names ≡ map name_of rows };

    ghost fine = { IsOrdered };

    fn judge(&mut self, alloc: Global, line: &Line) -> Result<PowerRow, Refused<Cause>> {
        let row = read_row(alloc, line)?;
        if !self.names.insert(row.name.bytes())? {
            return Err(Refused::At(Cause::TwiceRow));
        }
        Ok(row)
    }

    fn tell(cause: Cause) -> Cause {
        cause
    }
}

/// The rows of a power file, or its first fault. Faults stand by line; on one line those of its bytes and tokens come first, then
/// `BadRow`, `BadVoltage`, `MinAboveMax` and `TwiceRow` in this order. Each row's lowest voltage is at most its highest. It is linear in
/// the file.
pub fn read_power(alloc: Global, bytes: &[u8]) -> Result<Power, Refusal>
    ensures rows { IfOk result (λ power. power_of bytes.now ≡ Ok power) }
    ensures fault { IfAt result (λ fault. power_of bytes.now ≡ Err fault) }
    ensures ordered { IfOk result (λ power. All IsOrdered power) }
    ensures few { IfOk result (λ power. length power < 2 ^ 32) }
{
    let judge = PowerJudge {
        names: Names::new(alloc),
    };
    match read_rows(alloc, FileKind::Power, bytes, judge) {
        Ok(rows) => Ok(rows),
        Err(refused) => Err(refused.of(FileKind::Power)),
    }
}
