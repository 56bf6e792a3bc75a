//! Lists of pairs by their names, which are compared without regard to ASCII case.
ghost use Rattle.std.specs.Prelude.{◌≡◌, ℕ, ◌<◌, List, [], IfOk, IfSome, length, slice_get};
ghost use Rattle.std.specs.Option.{option_and_then, option_map};
ghost use Rattle.std.specs.Str.{str_to_ascii_lowercase};
ghost use Rattle.cvc_base.specs.declared.param.Pair.{Pair};
ghost use Rattle.cvc_params.specs.PairIndexes.{IsIndexOf, IsListed, last_low, value_of_pair};

use cvc_base::{NoMemory, Pair};
use indexmap::IndexMap;
use std::alloc::Global;

/// For each name of a list, in lower case, the place of its last pair.
#[derive(Drop)]
pub struct PairIndex {
    last: IndexMap<Vec<u8>, usize>,
}

// The text with small letters in place of ASCII capitals.
pub(crate) fn lower_case(alloc: Global, text: &[u8]) -> Result<Vec<u8>, NoMemory>
    ensures { IfOk result (λ low. low.items ≡ str_to_ascii_lowercase text.now) }
{
    let low = text
        .iter()
        .map(|byte| byte.to_ascii_lowercase())
        .collect(alloc)?;
    Ok(low)
}

impl PairIndex {
    // The index of these pairs, in time linear in them.
    pub(crate) fn of(alloc: Global, pairs: &[Pair]) -> Result<PairIndex, NoMemory>
        ensures { IfOk result (λ index. IsIndexOf index pairs.now) }
    {
        let mut last = IndexMap::new(alloc);
        for (place, pair) in pairs.iter().enumerate() {
            let name = lower_case(alloc, pair.name.bytes())?;
            last.insert(name, place)?;
        }
        Ok(PairIndex { last })
    }

    // The place of the last pair of a name, which is given in lower case.
    fn place(&self, pairs: &[Pair], low: &[u8]) -> Option<usize>
        requires { IsIndexOf self.now pairs.now }
        ensures inside { IfSome result (λ k. k < length pairs.now) }
        ensures pair { option_and_then (slice_get pairs.now) result ≡ last_low pairs.now low.now }
    {
        self.last.get(low).copied()
    }

    // The value of the last pair of a name, which is given in lower case.
    pub(crate) fn value<'p>(&self, pairs: &'p [Pair], low: &[u8]) -> Option<&'p [u8]>
        requires { IsIndexOf self.now pairs.now }
        ensures { option_map (λ text. text.now) result ≡ option_map value_of_pair (last_low pairs.now low.now) }
    {
        let place = self.place(pairs, low)?;
        let pair = &pairs[place];
        Some(pair.value.bytes())
    }
}

/// The indexes of lists of pairs: that of the main level, and those of cells and of instances' cards by numbers.
#[derive(Drop)]
pub struct PairIndexes {
    pub main: PairIndex,
    pub lists: Vec<PairIndex>,
}

impl PairIndexes {
    // The index of the main level's pairs alone.
    pub(crate) fn new(alloc: Global, params: &[Pair]) -> Result<PairIndexes, NoMemory>
        ensures main { IfOk result (λ indexes. IsIndexOf indexes.main params.now) }
        ensures lists { IfOk result (λ indexes. indexes.lists.items ≡ []) }
    {
        let main = PairIndex::of(alloc, params)?;
        Ok(PairIndexes {
            main,
            lists: Vec::new(alloc),
        })
    }

    // One list more, and its number.
    pub(crate) fn add(&mut self, alloc: Global, pairs: &[Pair]) -> Result<u32, NoMemory>
        ensures number { IfOk result (λ list. list ≡ length self.old.lists.items) }
        ensures listed { IfOk result (λ list. IsListed self.new list pairs.now) }
        ensures main { IfOk result (λ list. self.new.main ≡ self.old.main) }
        ensures lists { IfOk result (λ list. (k : ℕ) (others : List Pair) → IsListed self.old k others → IsListed self.new k others) }
    {
        let Ok(list) = u32::try_from(self.lists.len()) else {
            return Err(NoMemory);
        };
        self.lists.push(PairIndex::of(alloc, pairs)?)?;
        Ok(list)
    }
}
