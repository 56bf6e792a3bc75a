//! Sets of names from which names are taken out again.
ghost use Rattle.std.specs.Prelude.{◌≡◌, ◌<◌, ◌==◌, ◌||◌, ◌&&◌, ℕ, List, false, not, OnOk, slice_index_or};
ghost use Rattle.std.specs.Str.{bytes_eq};
ghost use Rattle.cvc_delta.specs.Left.{has_name};

use cvc_base::NoMemory;
use cvc_names::Names;
use std::alloc::Global;

/// A set of names. A name that is taken out keeps its place in the table, in case it comes again.
#[derive(Drop)]
pub(crate) struct NameSet {
    names: Names,
    // Whether the name of each place is in the set; no later one is.
    marks: Vec<bool>,
}

// Marks a place, where there are so many.
fn mark(marks: &mut Vec<bool>, count: usize, place: usize) -> Result<(), NoMemory>
    requires { place < count }
    ensures { OnOk result ((k : ℕ) → k < count → slice_index_or marks.new.items k false ≡ ((k == place) || slice_index_or marks.old.items k false)) }
{
    marks.resize(count, false)?;
    marks[place] = true;
    Ok(())
}

// Takes the mark of a place away, and says whether there was one.
fn unmark(marks: &mut Vec<bool>, place: usize) -> bool
    ensures was { result ≡ slice_index_or marks.old.items place false }
    ensures left { (k : ℕ) → slice_index_or marks.new.items k false ≡ (not (k == place) && slice_index_or marks.old.items k false) }
{
    if place >= marks.len() {
        return false;
    }
    let was = marks[place];
    marks[place] = false;
    was
}

impl NameSet {
    /// No names.
    pub(crate) fn new(alloc: Global) -> NameSet
        ensures { (name : List ℕ) → has_name result name ≡ false }
    {
        NameSet {
            names: Names::new(alloc),
            marks: Vec::new(alloc),
        }
    }

    /// Puts a name in, if it isn't there.
    pub(crate) fn insert(&mut self, name: &[u8]) -> Result<(), NoMemory>
        ensures { OnOk result ((other : List ℕ) → has_name self.new other ≡ (bytes_eq other name.now || has_name self.old other)) }
    {
        let place = self.names.number(name)?;
        mark(&mut self.marks, self.names.len(), place)
    }

    /// Takes a name out, and says whether it was there.
    pub(crate) fn remove(&mut self, name: &[u8]) -> bool
        ensures was { result ≡ has_name self.old name.now }
        ensures left { (other : List ℕ) → has_name self.new other ≡ (not (bytes_eq other name.now) && has_name self.old other) }
    {
        match self.names.find(name) {
            Some(place) => unmark(&mut self.marks, place),
            None => false,
        }
    }
}
