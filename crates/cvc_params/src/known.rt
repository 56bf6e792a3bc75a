//! The texts at the end of names that were asked.
ghost use Rattle.std.specs.Prelude.{◌≡◌, ℕ, List, Some, None, OnOk, if◌then◌else◌};
ghost use Rattle.std.specs.Option.{option_map};
ghost use Rattle.std.specs.Str.{bytes_eq};
ghost use Rattle.cvc_params.specs.Sights.{end_of};

use cvc_base::NoMemory;
use indexmap::IndexMap;
use std::alloc::Global;

// The last texts of names, by the names in lower case.
#[derive(Drop)]
pub(crate) struct Known<'n> {
    ends: IndexMap<Vec<u8>, &'n [u8]>,
}

impl<'n> Known<'n> {
    // Nothing is known. It takes no memory.
    pub(crate) fn new(alloc: Global) -> Known<'n>
        ensures { (low : List ℕ) → end_of result low ≡ None }
    {
        Known {
            ends: IndexMap::new(alloc),
        }
    }

    // The last text of a name.
    pub(crate) fn find(&self, low: &[u8]) -> Option<&'n [u8]>
        ensures { option_map (λ text. text.now) result ≡ end_of self.now low.now }
    {
        self.ends.get(low).copied()
    }

    // One last text more.
    pub(crate) fn keep(&mut self, low: Vec<u8>, end: &'n [u8]) -> Result<(), NoMemory>
        ensures { OnOk result ((name : List ℕ) → end_of self.new name ≡ (if bytes_eq name low.items then Some end.now else end_of self.old name)) }
    {
        self.ends.insert(low, end)?;
        Ok(())
    }
}
