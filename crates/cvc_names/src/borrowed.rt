//! Tables of names that lie elsewhere.
ghost use Rattle.std.specs.Prelude.{◌≡◌, ◌<◌, [], ◌∷◌, ◌++◌, length, not, IfOk, IfSome};
ghost use Rattle.std.specs.Bool.{OnTrue, OnFalse};
ghost use Rattle.cvc_names.specs.Names.{is_among, place_of};

use cvc_base::NoMemory;
use indexmap::IndexSet;
use std::alloc::Global;
use std::marker::Model;

/// A table of borrowed names, each once. Contracts see it as its names in the order in which they came.
#[derive(Drop)]
pub struct BorrowedNames<'a> {
    set: IndexSet<&'a [u8]>,
}

impl<'a> Model for BorrowedNames<'a> {
    ghost use Rattle.std.specs.Prelude.{ℕ, List, map};
    ghost use Rattle.cvc_names.specs.Names.{lent};

    ghost Value = { List (List ℕ) };

    ghost view = { λ n. map lent n.set.keys };
}

impl<'a> BorrowedNames<'a> {
    /// No names.
    pub fn new(alloc: Global) -> BorrowedNames<'a>
        ensures { result ≡ [] }
    {
        BorrowedNames {
            set: IndexSet::new(alloc),
        }
    }

    /// Whether a name is there.
    pub fn contains(&self, name: &[u8]) -> bool
        ensures { result ≡ is_among self.now name.now }
    {
        self.set.contains(name)
    }

    /// The place of a name, if it is there.
    pub fn find(&self, name: &[u8]) -> Option<usize>
        ensures place { result ≡ place_of self.now name.now }
        ensures within { IfSome result (λ k. k < length self.now) }
    {
        self.set.get_index_of(name)
    }

    /// Puts a name last and answers true, unless it is there.
    pub fn insert(&mut self, name: &'a [u8]) -> Result<bool, NoMemory>
        ensures free { IfOk result (λ free. free ≡ not (is_among self.old name.now)) }
        ensures added { IfOk result (λ free. OnTrue free (self.new ≡ self.old ++ name.now ∷ [])) }
        ensures same { IfOk result (λ free. OnFalse free (self.new ≡ self.old)) }
    {
        Ok(self.set.insert(name)?)
    }
}
