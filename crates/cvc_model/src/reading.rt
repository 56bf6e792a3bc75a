//! Whole model files.
ghost use Rattle.std.specs.Prelude.{◌≡◌, Ok, Err, IfOk};
ghost use Rattle.cvc_base.specs.Answers.{GivesOrStops, IfAt};
ghost use Rattle.cvc_model.specs.Rows.{row_of};
ghost use Rattle.cvc_model.specs.Bindable.{AreBindable, IsBindable};
ghost use Rattle.cvc_model.specs.Models.{models_of};

use crate::draft::read_items;
use crate::models::Models;
use crate::row::{ModelRow, volts_of};
use crate::words::kind_of;
use cvc_base::{Cause, FileKind, Line, Refusal, Stop, Text};
use cvc_rows::{Judge, Refused, read_rows};
use std::alloc::Global;

// The row of a line, by itself.
fn read_row(alloc: Global, line: &Line) -> Result<ModelRow, Stop>
    ensures row { GivesOrStops (λ row. row) result (row_of line.now) }
    ensures bindable { IfOk result IsBindable }
{
    let [name, word, items @ ..] = line.tokens.as_slice() else {
        return Err(Stop::At(Cause::BadRow));
    };
    let Some(kind) = kind_of(word.text.bytes()) else {
        return Err(Stop::At(Cause::UnknownKind));
    };
    let draft = read_items(alloc, kind, items)?;
    let volts = volts_of(kind, &draft.voltages)?;
    Ok(ModelRow {
        name: Text::of(alloc, name.text.bytes())?,
        kind,
        volts,
        tests: draft.tests,
        line: line.first,
    })
}

// A judge of model rows. Each stands by itself.
#[derive(Drop)]
struct ModelJudge;

impl Judge for ModelJudge {
    ghost use Rattle.cvc_model.specs.Bindable.{IsBindable};
    ghost use Rattle.cvc_model.specs.Models.{verdict};
    ghost use Rattle.cvc_rows.specs.Rows.{as_written};

    type Row = ModelRow;

    type Cause = Cause;

    ghost verdict = { λ _. verdict };

    ghost told = { as_written };

    ghost knows = { λ _ _. Unit {0} };

    ghost fine = { IsBindable };

    fn judge(&mut self, alloc: Global, line: &Line) -> Result<ModelRow, Refused<Cause>> {
        match read_row(alloc, line) {
            Ok(row) => Ok(row),
            Err(Stop::At(cause)) => Err(Refused::At(cause)),
            Err(Stop::NoMemory) => Err(Refused::NoMemory),
        }
    }

    fn tell(cause: Cause) -> Cause {
        cause
    }
}

/// The rows of a model file, or its first fault. Faults stand by line; on one line those of its bytes and tokens come first, then
/// `BadRow` for fewer than two tokens, `UnknownKind`, the faults of the items from the left, and `MissingVth`. An item's faults are, in
/// this order, `BadRow` for its form or a number, `UnknownKey`, `BadRow` for a key that was given, `BadVoltage` and `Negative`.
pub fn read_models(alloc: Global, bytes: &[u8]) -> Result<Models, Refusal>
    ensures rows { IfOk result (λ models. models_of bytes.now ≡ Ok models) }
    ensures fault { IfAt result (λ fault. models_of bytes.now ≡ Err fault) }

    // What binding asks of the rows.
    ensures bindable { IfOk result AreBindable }
{
    match read_rows(alloc, FileKind::Models, bytes, ModelJudge) {
        Ok(rows) => Ok(Models::of(alloc, rows)?),
        Err(refused) => Err(refused.of(FileKind::Models)),
    }
}
