//! An index of rows by their names.
ghost use Rattle.std.specs.Prelude.{◌≡◌, IfOk};
ghost use Rattle.cvc_model.specs.Indexed.{IsIndex};

use crate::row::ModelRow;
use cvc_base::NoMemory;
use indexmap::IndexMap;
use std::alloc::Global;

/// For each name the place of its first row, and for each row the place of the next row of its name.
#[derive(Drop)]
pub(crate) struct Index {
    pub(crate) first: IndexMap<Vec<u8>, usize>,
    pub(crate) next: Vec<Option<usize>>,
}

// The index of these rows, in time linear in them.
pub(crate) fn index_of(alloc: Global, rows: &[ModelRow]) -> Result<Index, NoMemory>
    ensures { IfOk result (λ index. IsIndex index rows.now) }
{
    let mut first = IndexMap::new(alloc);
    let mut next = vec![in alloc; None; rows.len()]?;
    // from the last row on: the place that a name had is that of its next row
    for place in (0..rows.len()).rev() {
        let name = Vec::from_slice(alloc, rows[place].name.bytes())?;
        next[place] = first.insert(name, place)?;
    }
    Ok(Index { first, next })
}
