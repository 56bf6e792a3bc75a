//! Hashes of texts, and places by their hashes.
ghost use Rattle.std.specs.Prelude.{◌≡◌, ◌<◌, ◌^◌, ℕ, IfOk, length, slice_index_or};
ghost use Rattle.cvc_flat.specs.Hashes.{IsFound, hash_on};

use cvc_base::NoMemory;
use std::alloc::Global;
use std::marker::Model;

// The hash of the empty text, and the factor of each byte.
pub(crate) const EMPTY: u32 = 2_166_136_261;

const FACTOR: u32 = 16_777_619;

// The hash of a text behind one that has this hash.
#[tactic(auto, unfolding(crate::specs::Hashes::hash_on))]
pub(crate) fn hash_on(front: u32, text: &[u8]) -> u32
    ensures { result ≡ hash_on front text.now }
{
    text.iter().fold(front, |hash, byte| {
        (hash ^ u32::from(*byte)).wrapping_mul(FACTOR)
    })
}

// A list of hashes whose places are looked up by their hashes. Hashes that leave one remainder share a bucket: `first` has the first place of each
// bucket, and `next` for each place the next one of its bucket. Where there is none, stands the number of all places.
#[derive(Drop)]
pub(crate) struct Hashes {
    list: Vec<u32>,
    first: Vec<u32>,
    next: Vec<u32>,
}

impl Model for Hashes {
    ghost use Rattle.std.specs.Prelude.{ℕ, List};
    ghost use Rattle.cvc_flat.specs.Hashes.{AreChained};

    ghost Value = { List ℕ };

    ghost view = { λ h. h.list.items };

    ghost invariant = { λ h. AreChained h.list.items h.first.items h.next.items };
}

impl Hashes {
    // These hashes.
    pub(crate) fn of(alloc: Global, list: Vec<u32>) -> Result<Hashes, NoMemory>
        requires { length list.items < 2 ^ 32 }
        ensures { IfOk result (λ hashes. hashes ≡ list.items) }
    {
        let count = list.len();
        let none = count as u32;
        let mut first = vec![in alloc; none; count + 1]?;
        let mut next = vec![in alloc; none; count]?;
        // from the last place on: the place that a bucket had is that of the next one
        for place in (0..count).rev() {
            let bucket = list[place] as usize % first.len();
            next[place] = first[bucket];
            first[bucket] = place as u32;
        }
        Ok(Hashes { list, first, next })
    }

    // The hash of a place.
    pub(crate) fn get(&self, place: usize) -> u32
        requires { place < length self.now }
        ensures { result ≡ slice_index_or self.now place 0 }
    {
        self.list[place]
    }

    // The first place of this hash that passes.
    pub(crate) fn find<F: Fn(usize) -> bool>(&self, hash: u32, passes: F) -> Option<usize>
        requires { (place : ℕ) → place < length self.now → F.pre passes place }
        ensures { IsFound self.now hash (F.post passes) result }
    {
        let bucket = hash as usize % self.first.len();
        let mut place = self.first[bucket] as usize;
        while place < self.list.len() {
            if self.list[place] == hash && passes(place) {
                return Some(place);
            }
            place = self.next[place] as usize;
        }
        None
    }
}
