//! Bounds that differ from what is expected of them.
ghost use Rattle.std.specs.Prelude.{◌≡◌, ◌<◌, ◌^◌, ◌++◌, All, IfOk, OnOk, length};
ghost use Rattle.cvc_expect.specs.Misses.{misses, missed_bound, missed_from, missed_row};
ghost use Rattle.cvc_expect.specs.Text.{IsTellable};

use crate::{Bound, ExpectRow};
use cvc_base::{ItemList, Mv, NetId, NoMemory, Side};
use cvc_law::{Family, Interval};
use std::alloc::Global;

/// A bound that differs from what is expected of it: the place of its row in the list, from 0, the side, and the bound that was found (none: it is unknown).
#[derive(Clone, Copy, Debug, PartialEq, Eq)]
pub struct Missed {
    pub row: u32,
    pub side: Side,
    pub found: Option<Mv>,
}

/// All bounds that differ, in the order of the rows, a low before its high.
pub type MissedList = ItemList<Missed>;

// Whether the bound that was found differs from what is expected of it.
fn differs(missed: &Missed, bound: Bound) -> bool
    ensures { result ≡ misses bound missed.now.found }
{
    match bound {
        Bound::Any => false,
        Bound::Unknown => missed.found.is_some(),
        Bound::At(expected) => match missed.found {
            Some(found) => found.get() != expected.get(),
            None => true,
        },
    }
}

// Puts the bound of a row last, if it differs.
fn note_bound(
    list: &mut MissedList,
    row: u32,
    side: Side,
    bound: Bound,
    found: Option<Mv>,
) -> Result<(), NoMemory>
    ensures { OnOk result (list.new ≡ list.old ++ missed_bound row side bound found) }
{
    let missed = Missed { row, side, found };
    if differs(&missed, bound) {
        list.push(missed)?;
    }
    Ok(())
}

// Puts the bounds of a net last that differ from what the row at this place expects.
fn note_row(
    list: &mut MissedList,
    place: u32,
    row: &ExpectRow,
    found: Interval,
) -> Result<(), NoMemory>
    ensures { OnOk result (list.new ≡ list.old ++ missed_row place row.now found) }
{
    note_bound(list, place, Side::Low, row.low, found.low)?;
    note_bound(list, place, Side::High, row.high, found.high)
}

/// What rows that name these nets miss.
pub(crate) fn missed_on(
    alloc: Global,
    family: &Family,
    nets: &[NetId],
    rows: &[ExpectRow],
) -> Result<MissedList, NoMemory>
    requires each { length nets.now ≡ length rows.now }
    requires inside { All (λ net. net.0 < length family.now) nets.now }
    requires few { length rows.now < 2 ^ 32 }
    ensures missed { IfOk result (λ list. list ≡ missed_from family.now 0 nets.now rows.now) }
    ensures tellable { IfOk result (All (IsTellable rows.now)) }
{
    let mut list = MissedList::new(alloc);
    for place in 0..rows.len() {
        let found = family.interval(nets[place]);
        note_row(&mut list, place as u32, &rows[place], found)?;
    }
    Ok(list)
}
