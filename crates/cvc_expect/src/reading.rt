//! Whole expected files.
ghost use Rattle.std.specs.Prelude.{◌≡◌, ◌<◌, ◌^◌, [], ◌∷◌, ◌++◌, IfOk, length, map};
ghost use Rattle.cvc_names.specs.Names.{is_among};
ghost use Rattle.cvc_expect.specs.Rows.{expected_of};
ghost use Rattle.cvc_rows.specs.Refusing.{Answers};

use crate::ExpectRefusal;
use crate::row::{ExpectRow, Expected, read_row};
use cvc_base::{Cause, FileKind, Line};
use cvc_names::Names;
use cvc_rows::{Judge, Refused, read_rows};
use std::alloc::Global;

// A judge of expected rows, with the names of the rows so far.
#[derive(Drop)]
struct ExpectJudge {
    names: Names,
}

impl Judge for ExpectJudge {
    ghost use Rattle.std.specs.Prelude.{◌≡◌, map};
    ghost use Rattle.cvc_expect.specs.Rows.{name_of, verdict};
    ghost use Rattle.cvc_rows.specs.Rows.{as_written};

    type Row = ExpectRow;

    type Cause = Cause;

    ghost verdict = { λ _. verdict };

    ghost told = { as_written };

    ghost knows = { λ judge rows. judge.names ≡ map name_of rows };

    ghost fine = { λ _. Unit {0} };

    fn judge(&mut self, alloc: Global, line: &Line) -> Result<ExpectRow, Refused<Cause>> {
        let row = read_row(alloc, line)?;
        if !self.names.insert(row.name.bytes())? {
            return Err(Refused::At(Cause::TwiceRow));
        }
        Ok(row)
    }

    fn tell(cause: Cause) -> Cause {
        cause
    }
}

/// The rows of an expected file, or its first fault. Faults stand by line; on one line those of its bytes and tokens come first, as in a power file,
/// then `BadRow`, `BadVoltage` and `TwiceRow` in this order. It is linear in the file.
pub fn read_expected(alloc: Global, bytes: &[u8]) -> Result<Expected, ExpectRefusal>
    ensures rows { Answers result (expected_of bytes.now) }
    ensures few { IfOk result (λ rows. length rows < 2 ^ 32) }
{
    let judge = ExpectJudge {
        names: Names::new(alloc),
    };
    read_rows(alloc, FileKind::Power, bytes, judge)
}
