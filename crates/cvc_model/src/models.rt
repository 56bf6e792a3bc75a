//! The rows of a model file, and the choice among them.
ghost use Rattle.std.specs.Prelude.{◌≡◌, ◌+◌, ◌<◌, ◌^◌, [], ◌∷◌, ◌++◌, ◌==◌, length, slice_set, slice_index_or, slice_get, OnOk, OnErr, IfOk, Some};
ghost use Rattle.std.specs.List.{remove};
ghost use Rattle.cvc_model.specs.Chosen.{choice_of, next_place};

use crate::choosing::{Outcome, outcome_of};
use crate::index::{Index, index_of};
use crate::row::ModelRow;
use cvc_base::{ItemList, NoMemory, Params};
use std::alloc::Global;
use std::marker::Model;

/// What is chosen for a device.
#[derive(Clone, Copy, Debug, PartialEq, Eq)]
pub enum Choice {
    /// The row at this place, from 0.
    Chosen(u32),
    /// No row of the name has tests that all hold.
    Nothing,
    /// A test that was reached names a parameter that is a word.
    WordMet,
}

/// Model rows in order. Contracts see the list of the rows. Those that `read_models` gives are found by their names at once; after a
/// change of the rows a choice looks through all.
#[derive(Drop)]
pub struct Models {
    rows: ItemList<ModelRow>,
    index: Option<Index>,
}

impl Model for Models {
    ghost use Rattle.std.specs.Prelude.{List};
    ghost use Rattle.std.specs.Option.{ForSome};
    ghost use Rattle.cvc_model.specs.declared.row.ModelRow.{ModelRow};
    ghost use Rattle.cvc_model.specs.Indexed.{IsIndex};

    ghost Value = { List ModelRow };

    ghost view = { λ m. m.rows };

    ghost invariant = { λ m. ForSome m.index (λ index. IsIndex index m.rows) };
}

// The place of the first of these rows from `from` on that has this name.
fn place_from(rows: &[ModelRow], name: &[u8], from: usize) -> Option<usize>
    ensures { result ≡ next_place rows.now name.now from }
{
    for place in from..rows.len() {
        if name == rows[place].name.bytes() {
            return Some(place);
        }
    }
    None
}

impl Models {
    /// No rows.
    pub fn new(alloc: Global) -> Models
        ensures { result ≡ [] }
    {
        Models {
            rows: ItemList::new(alloc),
            index: None,
        }
    }

    // These rows, with their index.
    pub(crate) fn of(alloc: Global, rows: ItemList<ModelRow>) -> Result<Models, NoMemory>
        ensures { IfOk result (λ models. models ≡ rows) }
    {
        let index = index_of(alloc, rows.as_slice())?;
        Ok(Models {
            rows,
            index: Some(index),
        })
    }

    /// How many rows there are.
    pub fn len(&self) -> usize
        ensures { result ≡ length self.now }
    {
        self.rows.len()
    }

    /// Whether there is no row.
    pub fn is_empty(&self) -> bool
        ensures { result ≡ (length self.now == 0) }
    {
        self.rows.is_empty()
    }

    /// The row at place `i`, from 0.
    pub fn get(&self, i: usize) -> &ModelRow
        requires { i < length self.now }
        ensures { result.now ≡ slice_index_or self.now i result.now }
    {
        self.rows.get(i)
    }

    /// Puts a row in the place of another, which it gives back.
    pub fn replace(&mut self, i: usize, row: ModelRow) -> ModelRow
        requires { i < length self.old }
        ensures after { self.new ≡ slice_set self.old i row }
        ensures before { result ≡ slice_index_or self.old i result }
    {
        self.index = None;
        self.rows.replace(i, row)
    }

    /// Takes a row out. The later ones move up by one place.
    pub fn remove(&mut self, i: usize) -> ModelRow
        requires { i < length self.old }
        ensures after { self.new ≡ remove self.old i }
        ensures before { result ≡ slice_index_or self.old i result }
    {
        self.index = None;
        self.rows.remove(i)
    }

    /// Puts a row last. Without memory the rows stay as they were, and the row is dropped.
    pub fn push(&mut self, row: ModelRow) -> Result<(), NoMemory>
        ensures ok { OnOk result (self.new ≡ self.old ++ row ∷ []) }
        ensures err { OnErr result (self.new ≡ self.old) }
    {
        self.index = None;
        self.rows.push(row)
    }

    fn first_place(&self, name: &[u8]) -> Option<usize>
        ensures { result ≡ next_place self.now name.now 0 }
    {
        match &self.index {
            Some(index) => index.first.get(name).copied(),
            None => place_from(self.rows.as_slice(), name, 0),
        }
    }

    // The place of the next row of this one's name.
    fn place_after(&self, place: usize, name: &[u8]) -> Option<usize>
        requires place { place < length self.now }
        requires named { (row : ModelRow) → slice_get self.now place ≡ Some row → row.name ≡ name.now }
        ensures { result ≡ next_place self.now name.now (place + 1) }
    {
        match &self.index {
            Some(index) => index.next[place],
            None => place_from(self.rows.as_slice(), name, place + 1),
        }
    }

    /// The row of a device whose model has this name: the first row of the name whose tests all hold of the parameters.
    ///
    /// Of several parameters of one name, without regard to case, the last counts, and a test of a missing one doesn't hold. A row's
    /// tests are read from the left up to the first that doesn't hold; a test so reached whose parameter is a word is `WordMet`.
    pub fn choose(&self, name: &[u8], params: &Params) -> Choice
        requires { length self.now < 2 ^ 32 }
        ensures { result ≡ choice_of self.now name.now params.now }
    {
        let mut next = self.first_place(name);
        while let Some(place) = next {
            match outcome_of(&self.rows.get(place).tests, params) {
                Outcome::Holds => return Choice::Chosen(place as u32),
                Outcome::Word => return Choice::WordMet,
                Outcome::Fails => {}
            }
            next = self.place_after(place, name);
        }
        Choice::Nothing
    }
}
