//! Whole edits files.
ghost use Rattle.std.specs.Prelude.{◌≡◌, ◌≤◌, List, All, IfOk, OnOk, length};
ghost use Rattle.cvc_lex.specs.Bytes.{file_limit};
ghost use Rattle.cvc_power.specs.declared.row.PowerRow.{PowerRow};
ghost use Rattle.cvc_rows.specs.Refusing.{Answers};
ghost use Rattle.cvc_rows.specs.Tokens.{texts_of};
ghost use Rattle.cvc_delta.specs.Edits.{IsOrderedEdit, after, after_all};
ghost use Rattle.cvc_delta.specs.Reading.{AreLeft, edit_of, edits_of, if_there, recheck_of, set_of, unset_of};

use crate::left::NameSet;
use crate::{Edit, Edits, EditsCause, EditsRefusal};
use cvc_base::{Cause, FileKind, Line, NoMemory, Text, Token};
use cvc_power::{Power, span_of};
use cvc_rows::{Judge, Refused, is_word, read_rows};
use std::alloc::Global;

const BAD_ROW: Refused<EditsCause> = Refused::At(EditsCause::Text(Cause::BadRow));

// The edit of a row that begins with `set`, by its further tokens.
fn read_set(alloc: Global, tokens: &[Token]) -> Result<Edit, Refused<EditsCause>>
    ensures edit { Answers result (set_of (texts_of tokens.now)) }
    ensures ordered { IfOk result IsOrderedEdit }
{
    let [name, form @ ..] = tokens else {
        return Err(BAD_ROW);
    };
    match span_of(form) {
        Ok(span) => Ok(Edit::Set {
            name: Text::of(alloc, name.text.bytes())?,
            low: span.low,
            high: span.high,
        }),
        Err(cause) => Err(Refused::At(EditsCause::Text(cause))),
    }
}

// The same of one that begins with `unset`.
fn read_unset(alloc: Global, tokens: &[Token]) -> Result<Edit, Refused<EditsCause>>
    ensures edit { Answers result (unset_of (texts_of tokens.now)) }
    ensures ordered { IfOk result IsOrderedEdit }
{
    let [name] = tokens else {
        return Err(BAD_ROW);
    };
    Ok(Edit::Unset {
        name: Text::of(alloc, name.text.bytes())?,
    })
}

// The same of one that begins with `recheck`.
fn read_recheck(tokens: &[Token]) -> Result<Edit, Refused<EditsCause>>
    ensures edit { Answers result (recheck_of (texts_of tokens.now)) }
    ensures ordered { IfOk result IsOrderedEdit }
{
    match tokens {
        [] => Ok(Edit::Recheck),
        [_, ..] => Err(BAD_ROW),
    }
}

// The edit of a row with these tokens, by itself.
fn read_edit(alloc: Global, tokens: &[Token]) -> Result<Edit, Refused<EditsCause>>
    ensures edit { Answers result (edit_of (texts_of tokens.now)) }
    ensures ordered { IfOk result IsOrderedEdit }
{
    let [first, behind @ ..] = tokens else {
        return Err(BAD_ROW);
    };
    let word = first.text.bytes();
    if is_word(word, b"set") {
        read_set(alloc, behind)
    } else if is_word(word, b"unset") {
        read_unset(alloc, behind)
    } else if is_word(word, b"recheck") {
        read_recheck(behind)
    } else {
        Err(BAD_ROW)
    }
}

// The names of the rows.
fn names_left(alloc: Global, power: &Power) -> Result<NameSet, NoMemory>
    ensures { IfOk result (λ left. AreLeft left power.now) }
{
    let mut left = NameSet::new(alloc);
    for row in power.as_slice() {
        left.insert(row.name.bytes())?;
    }
    Ok(left)
}

// Does an edit to the names that are left, or refuses it.
fn edit_names(left: &mut NameSet, edit: &Edit) -> Result<(), Refused<EditsCause>>
    ensures verdict { (rows : List PowerRow) → AreLeft left.old rows → Answers result (if_there rows edit.now) }
    ensures left { (rows : List PowerRow) → AreLeft left.old rows → OnOk result (AreLeft left.new (after rows edit.now)) }
{
    match edit {
        Edit::Set {
            name,
            low: _,
            high: _,
        } => Ok(left.insert(name.bytes())?),
        Edit::Unset { name } => {
            if left.remove(name.bytes()) {
                Ok(())
            } else {
                Err(Refused::At(EditsCause::NotThere))
            }
        }
        Edit::Recheck => Ok(()),
    }
}

// A judge of edits of these rows, with the names that are left.
#[derive(Drop)]
struct EditsJudge<'a> {
    power: &'a Power,
    left: NameSet,
}

impl<'a> Judge for EditsJudge<'a> {
    ghost use Rattle.std.specs.Prelude.{◌≡◌};
    ghost use Rattle.cvc_delta.specs.Edits.{IsOrderedEdit, after_all};
    ghost use Rattle.cvc_delta.specs.Reading.{AreLeft, told, verdict};

    type Row = Edit;

    type Cause = EditsCause;

    ghost verdict = { λ judge. verdict judge.power.now };

    ghost told = { told };

    ghost knows = { λ judge edits. AreLeft judge.left (after_all judge.power.now edits) };

    ghost fine = { IsOrderedEdit };

    fn judge(&mut self, alloc: Global, line: &Line) -> Result<Edit, Refused<EditsCause>> {
        let edit = read_edit(alloc, line.tokens.as_slice())?;
        edit_names(&mut self.left, &edit)?;
        Ok(edit)
    }

    fn tell(cause: Cause) -> EditsCause
        ensures { result ≡ told cause }
    {
        EditsCause::Text(cause)
    }
}

/// The edits of a file, or its first fault. Faults stand by line; on one line those of its bytes and tokens come first, then `BadRow`, `BadVoltage`,
/// `MinAboveMax` and `NotThere`, where an edit unsets a name that no row has which these rows and the edits before it leave. It is linear in the file and the
/// rows.
pub fn read_edits(alloc: Global, bytes: &[u8], power: &Power) -> Result<Edits, EditsRefusal>
    ensures edits { Answers result (edits_of power.now bytes.now) }
    // No set's low lies above its high.
    ensures ordered { IfOk result (All IsOrderedEdit) }
    ensures few { IfOk result (λ edits. length edits ≤ 16777216) }
{
    let judge = EditsJudge {
        power,
        left: names_left(alloc, power)?,
    };
    read_rows(alloc, FileKind::Power, bytes, judge)
}
