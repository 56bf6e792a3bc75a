//! Tables of names that own them.
ghost use Rattle.std.specs.Prelude.{◌≡◌, ◌<◌, ◌≤◌, None, [], ◌∷◌, ◌++◌, length, not, IfOk, IfSome, OnErr, OnOk};
ghost use Rattle.std.specs.Bool.{OnTrue, OnFalse};
ghost use Rattle.cvc_names.specs.Chains.{text_hash};
ghost use Rattle.cvc_names.specs.Names.{AreApart, AreEnds, is_among, name_at, place_of, start_at, texts_in, with_name};

use crate::chains::{Chains, hash_of};
use cvc_base::NoMemory;
use std::alloc::Global;
use std::marker::Model;

/// A table of names, each once. The place of a name is the number of names that came before it. Contracts see the table as its names in
/// the order in which they came.
#[derive(Drop)]
pub struct Names {
    // All names, one behind another,
    bytes: Vec<u8>,
    // and where each of them ends.
    ends: Vec<u32>,
    chains: Chains,
}

impl Model for Names {
    ghost use Rattle.std.specs.Prelude.{ℕ, List};
    ghost use Rattle.cvc_names.specs.Names.{IsTable, texts_in};

    ghost Value = { List (List ℕ) };

    ghost view = { λ n. texts_in n.bytes.items 0 n.ends.items };

    ghost invariant = { λ n. IsTable n.bytes.items n.ends.items n.chains };
}

// Where the text at a place begins.
fn start_of(ends: &[u32], k: usize) -> usize
    requires { k ≤ length ends.now }
    ensures { result ≡ start_at 0 ends.now k }
{
    if k == 0 { 0 } else { ends[k - 1] as usize }
}

// The text at a place, of those that lie in these bytes and end there.
#[tactic(auto, using(crate::proofs::Lying::ascends, crate::proofs::Lying::end_inside, crate::proofs::Lying::text_at))]
fn text_at<'a>(bytes: &'a [u8], ends: &[u32], k: usize) -> &'a [u8]
    requires ascending { AreEnds 0 ends.now (length bytes.now) }
    requires inside { k < length ends.now }
    ensures { result.now ≡ name_at (texts_in bytes.now 0 ends.now) k }
{
    let start = start_of(ends, k);
    &bytes[start..ends[k] as usize]
}

impl Names {
    /// No names.
    #[tactic(auto, using(crate::proofs::Lying::table_none), unfolding(crate::specs::Names::texts_in))]
    pub fn new(alloc: Global) -> Names
        ensures { result ≡ [] }
    {
        Names {
            bytes: Vec::new(alloc),
            ends: Vec::new(alloc),
            chains: Chains::new(alloc),
        }
    }

    /// How many names there are.
    #[tactic(auto, using(crate::proofs::Lying::count_texts))]
    pub fn len(&self) -> usize
        ensures count { result ≡ length self.now }
        ensures apart { AreApart self.now }
    {
        self.ends.len()
    }

    // The place of a name that has this hash.
    fn find_by(&self, hash: u32, name: &[u8]) -> Option<usize>
        requires { hash ≡ text_hash name.now }
        ensures place { result ≡ place_of self.now name.now }
        ensures within { IfSome result (λ k. k < length self.now) }
    {
        self.chains.find(hash, |place| self.get(place) == name)
    }

    /// The place of a name, if it is there.
    #[tactic(auto, using(crate::proofs::Lying::count_texts, crate::proofs::Tables::none_there))]
    pub fn find(&self, name: &[u8]) -> Option<usize>
        ensures place { result ≡ place_of self.now name.now }
        ensures within { IfSome result (λ k. k < length self.now) }
    {
        if self.ends.is_empty() {
            return None;
        }
        self.find_by(hash_of(name), name)
    }

    /// The name at a place.
    #[tactic(auto, using(crate::proofs::Lying::count_texts))]
    pub fn get(&self, k: usize) -> &[u8]
        requires { k < length self.now }
        ensures { result.now ≡ name_at self.now k }
    {
        text_at(&self.bytes, &self.ends, k)
    }

    // Puts a new name last, which has this hash. All room that it takes is made first, so that the table is as it was where there is none.
    fn push(&mut self, hash: u32, name: &[u8]) -> Result<(), NoMemory>
        requires hash { hash ≡ text_hash name.now }
        requires new { place_of self.old name.now ≡ None }
        ensures ok { OnOk result (self.new ≡ self.old ++ name.now ∷ []) }
        ensures err { OnErr result (self.new ≡ self.old) }
    {
        let Ok(end) = u32::try_from(self.bytes.len() + name.len()) else {
            return Err(NoMemory);
        };
        self.bytes.reserve(name.len())?;
        self.ends.reserve(1)?;
        self.chains.push(hash)?;
        self.ends.push_reserved(end);
        self.bytes.extend_from_slice(name)?;
        Ok(())
    }

    /// The place of a name, which is put last unless it is there. Only a new name is copied.
    #[tactic(auto, using(crate::proofs::Tables::name_at_place, crate::proofs::Tables::names_kept, crate::proofs::Tables::names_more))]
    pub fn number(&mut self, name: &[u8]) -> Result<usize, NoMemory>
        ensures names { IfOk result (λ k. self.new ≡ with_name self.old name.now) }
        ensures within { IfOk result (λ k. k < length self.new) }
        ensures name { IfOk result (λ k. name_at self.new k ≡ name.now) }
    {
        let hash = hash_of(name);
        if let Some(place) = self.find_by(hash, name) {
            return Ok(place);
        }
        let place = self.len();
        self.push(hash, name)?;
        Ok(place)
    }

    /// Puts a name last and answers true, unless it is there. Only a new name is copied.
    #[tactic(auto, using(crate::proofs::Tables::among_is))]
    pub fn insert(&mut self, name: &[u8]) -> Result<bool, NoMemory>
        ensures free { IfOk result (λ free. free ≡ not (is_among self.old name.now)) }
        ensures added { IfOk result (λ free. OnTrue free (self.new ≡ self.old ++ name.now ∷ [])) }
        ensures same { IfOk result (λ free. OnFalse free (self.new ≡ self.old)) }
    {
        let hash = hash_of(name);
        if self.find_by(hash, name).is_some() {
            return Ok(false);
        }
        self.push(hash, name)?;
        Ok(true)
    }
}
