//! Edits of the rows of a session.
ghost use Rattle.std.specs.Prelude.{◌≡◌, ◌<◌, ◌^◌, ◌≤ℤ◌, [], IfOk, IfSome, OnErr, length};
ghost use Rattle.std.specs.Bool.{OnFalse, OnTrue};
ghost use Rattle.std.specs.Str.{bytes_eq};
ghost use Rattle.cvc_names.specs.Names.{place_of as place_among};
ghost use Rattle.cvc_delta.specs.Edits.{has_row, names_of, numbered, set_row as rows_set, unset_row as rows_left};
ghost use Rattle.cvc_delta.specs.Rows.{AreRows, AreWiderRows};

use cvc_base::{Mv, NoMemory, Text};
use cvc_power::{Power, PowerRow};
use std::alloc::Global;

fn has_name(row: &PowerRow, name: &[u8]) -> bool
    ensures { result ≡ bytes_eq name.now row.now.name }
{
    name == row.name.bytes()
}

// The place of the row of this name, if there is one.
fn place_of(rows: &[PowerRow], name: &[u8]) -> Option<usize>
    ensures place { result ≡ place_among (names_of rows.now) name.now }
    ensures within { IfSome result (λ place. place < length rows.now) }
{
    for place in 0..rows.len() {
        if has_name(&rows[place], name) {
            return Some(place);
        }
    }
    None
}

/// Gives each row the line of its place. A row that is let go takes the place of the one that is at hand, so this takes no memory.
pub(crate) fn number(rows: &mut Power, spare: PowerRow)
    requires { length rows.old < 2 ^ 32 }
    ensures { rows.new ≡ numbered rows.old }
{
    let mut at_hand = spare;
    for place in 0..rows.len() {
        let mut row = rows.replace(place, at_hand);
        row.line = place as u32 + 1;
        at_hand = rows.replace(place, row);
    }
}

// Whether a row's bounds lie within these.
fn lies_within(row: &PowerRow, low: Mv, high: Mv) -> bool
    ensures low { OnTrue result (low ≤ℤ row.now.low) }
    ensures high { OnTrue result (row.now.high ≤ℤ high) }
{
    low.get() <= row.low.get() && row.high.get() <= high.get()
}

/// Gives the row of this name these bounds, or puts a new one last, and says whether a row was widened or left as it was. Without memory, and where there
/// are 2^32 - 1 rows, the rows stay as they were.
pub(crate) fn set_row(
    alloc: Global,
    rows: &mut Power,
    name: &[u8],
    low: Mv,
    high: Mv,
) -> Result<bool, NoMemory>
    requires { AreRows rows.old }
    ensures rows { IfOk result (λ _. rows.new ≡ rows_set rows.old name.now low high) }
    ensures wider { IfOk result (λ widened. OnTrue widened (AreWiderRows rows.old rows.new)) }
    ensures few { IfOk result (λ _. length rows.new < 2 ^ 32) }
    ensures same { OnErr result (rows.new ≡ rows.old) }
{
    let place = place_of(rows.as_slice(), name);
    let name = Text::of(alloc, name)?;
    let Some(place) = place else {
        if rows.len() >= u32::MAX as usize {
            return Err(NoMemory);
        }
        let line = rows.len() as u32 + 1;
        rows.push(PowerRow {
            name,
            low,
            high,
            line,
        })?;
        return Ok(false);
    };
    let line = place as u32 + 1;
    let before = rows.replace(
        place,
        PowerRow {
            name,
            low,
            high,
            line,
        },
    );
    Ok(lies_within(&before, low, high))
}

/// Takes the row of this name out, and says whether there was one. Later rows move up. It takes no memory.
pub(crate) fn unset_row(rows: &mut Power, name: &[u8]) -> bool
    requires { AreRows rows.old }
    ensures there { result ≡ has_row rows.old name.now }
    ensures left { OnTrue result (rows.new ≡ rows_left rows.old name.now) }
    ensures same { OnFalse result (rows.new ≡ rows.old) }
{
    match place_of(rows.as_slice(), name) {
        Some(place) => {
            let gone = rows.remove(place);
            number(rows, gone);
            true
        }
        None => false,
    }
}
