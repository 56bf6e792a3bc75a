//! Whole lists of modes.
ghost use Rattle.std.specs.Prelude.{◌≤◌, IfOk, length};
ghost use Rattle.cvc_rows.specs.Refusing.{Answers};
ghost use Rattle.cvc_modes.specs.Modes.{most_modes, modes_of, row_of};

use crate::{ListCause, ListRefusal, ModeList, ModeRow};
use cvc_base::{Cause, FileKind, Line, Text};
use cvc_names::Names;
use cvc_rows::{Judge, Refused, read_rows};
use std::alloc::Global;

/// How many modes a list has at most.
const MOST_MODES: usize = 16;

// The row of a line, by itself.
fn read_row(alloc: Global, line: &Line) -> Result<ModeRow, Refused<ListCause>>
    ensures { Answers result (row_of line.now) }
{
    let [name, file] = line.tokens.as_slice() else {
        return Err(Refused::At(ListCause::Text(Cause::BadRow)));
    };
    Ok(ModeRow {
        name: Text::of(alloc, name.text.bytes())?,
        file: Text::of(alloc, file.text.bytes())?,
        line: line.first,
    })
}

// A judge of rows of modes, with the names of the modes so far.
#[derive(Drop)]
struct ModeJudge {
    names: Names,
}

impl Judge for ModeJudge {
    ghost use Rattle.std.specs.Prelude.{◌≡◌, map};
    ghost use Rattle.cvc_modes.specs.Modes.{name_of, told, verdict};

    type Row = ModeRow;

    type Cause = ListCause;

    ghost verdict = { λ _. verdict };

    ghost told = { told };

    ghost knows = { λ judge rows. judge.names ≡ map name_of rows };

    ghost fine = { λ _. Unit {0} };

    fn judge(&mut self, alloc: Global, line: &Line) -> Result<ModeRow, Refused<ListCause>> {
        let row = read_row(alloc, line)?;
        if !self.names.insert(row.name.bytes())? {
            return Err(Refused::At(ListCause::Text(Cause::TwiceRow)));
        }
        if self.names.len() > MOST_MODES {
            return Err(Refused::At(ListCause::TooMany));
        }
        Ok(row)
    }

    fn tell(cause: Cause) -> ListCause {
        ListCause::Text(cause)
    }
}

/// The rows of a list of modes, or its first fault. Faults stand by line; on one line those of its bytes and tokens come first, then `BadRow` where
/// there aren't two tokens, `TwiceRow` where an earlier row names the same mode, and `TooMany` where it is the seventeenth row. It is linear in the
/// list.
pub fn read_modes(alloc: Global, bytes: &[u8]) -> Result<ModeList, ListRefusal>
    ensures rows { Answers result (modes_of bytes.now) }
    ensures few { IfOk result (λ list. length list ≤ most_modes) }
{
    let judge = ModeJudge {
        names: Names::new(alloc),
    };
    read_rows(alloc, FileKind::Power, bytes, judge)
}
