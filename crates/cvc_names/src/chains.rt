//! Places by their hashes.
ghost use Rattle.std.specs.Prelude.{◌≡◌, ℕ, ◌+◌, ◌<◌, ◌^◌, [], ◌∷◌, ◌++◌, length, vec_capacity, vec_len, OnErr, OnOk};
ghost use Rattle.cvc_names.specs.Chains.{AreChained, AreLinked, IsFound, bucket_of, text_hash};

use cvc_base::NoMemory;
use std::alloc::Global;
use std::hash::{FoldHasher, Hasher};
use std::marker::Model;

/// The hash of a text.
#[tactic(auto, unfolding(crate::specs::Chains::text_hash))]
pub fn hash_of(text: &[u8]) -> u32
    ensures { result ≡ text_hash text.now }
{
    let mut hasher = FoldHasher::default();
    hasher.write(text);
    (hasher.finish() & 0xffff_ffff) as u32
}

// The bucket of a hash. The number of buckets is a power of two: of another number some would stay empty.
#[tactic(auto, using(std::proofs::lemmas::Nat::and_le_r), unfolding(crate::specs::Chains::bucket_of))]
fn bucket_of(hash: u32, buckets: usize) -> usize
    requires { 0 < buckets }
    ensures bucket { result ≡ bucket_of buckets hash }
    ensures inside { result < buckets }
{
    hash as usize & (buckets - 1)
}

// Puts a place in front of the chain of its bucket.
fn put_in_front(hashes: &[u32], heads: &mut [u32], links: &mut [u32], place: usize)
    requires linked { AreLinked hashes.now heads.old links.old place }
    requires inside { place < length hashes.now }
    requires some { 0 < length heads.old }
    ensures { AreLinked hashes.now heads.new links.new (place + 1) }
{
    let bucket = bucket_of(hashes[place], heads.len());
    links[place] = heads[bucket];
    heads[bucket] = place as u32 + 1;
}

// Where there are as many places as buckets, makes twice as many buckets and chains the places anew.
fn widen(
    alloc: Global,
    hashes: &[u32],
    heads: &mut Vec<u32>,
    links: &mut [u32],
) -> Result<(), NoMemory>
    requires { AreChained hashes.now heads.old.items links.old }
    ensures chained { AreChained hashes.now heads.new.items links.new }
    ensures room { OnOk result (length hashes.now < length heads.new.items) }
{
    let count = hashes.len();
    if count < heads.len() {
        return Ok(());
    }
    let mut wider = vec![in alloc; 0u32; 2 * count.max(4)]?;
    for place in 0..count {
        put_in_front(hashes, &mut wider, links, place);
    }
    *heads = wider;
    Ok(())
}

// Puts a place last, of this hash, where there is room for it.
fn put_last(hashes: &mut Vec<u32>, heads: &mut [u32], links: &mut Vec<u32>, hash: u32)
    requires chained { AreChained hashes.old.items heads.old links.old.items }
    requires few { length hashes.old.items + 1 < 2 ^ 32 }
    requires buckets { length hashes.old.items < length heads.old }
    requires hashes_room { vec_len hashes.old < vec_capacity hashes.old }
    requires links_room { vec_len links.old < vec_capacity links.old }
    ensures chained { AreChained hashes.new.items heads.new links.new.items }
    ensures last { hashes.new.items ≡ hashes.old.items ++ hash ∷ [] }
{
    let place = hashes.len();
    hashes.push_reserved(hash);
    links.push_reserved(0);
    put_in_front(hashes, heads, links, place);
}

/// A list of hashes that grows, whose places are looked up by their hashes. A place takes 12 to 24 bytes. Contracts see the hashes in the order in which
/// they came.
#[derive(Drop)]
pub struct Chains {
    alloc: Global,
    hashes: Vec<u32>,
    // A link is a place and one, or 0 where there is none. Each bucket has the link to its newest place,
    heads: Vec<u32>,
    // and each place the link to the next older one of its bucket.
    links: Vec<u32>,
}

impl Model for Chains {
    ghost use Rattle.std.specs.Prelude.{ℕ, List};
    ghost use Rattle.cvc_names.specs.Chains.{AreChained};

    ghost Value = { List ℕ };

    ghost view = { λ c. c.hashes.items };

    ghost invariant = { λ c. AreChained c.hashes.items c.heads.items c.links.items };
}

impl Chains {
    /// No places.
    pub fn new(alloc: Global) -> Chains
        ensures { result ≡ [] }
    {
        Chains {
            alloc,
            hashes: Vec::new(alloc),
            heads: Vec::new(alloc),
            links: Vec::new(alloc),
        }
    }

    /// How many places there are.
    pub fn len(&self) -> usize
        ensures { result ≡ length self.now }
    {
        self.hashes.len()
    }

    /// Puts a place of this hash last. Without memory, and where there are 2^32 - 1 places, the list stays as it was. All pushes together take time in
    /// proportion to the number of places.
    pub fn push(&mut self, hash: u32) -> Result<(), NoMemory>
        ensures ok { OnOk result (self.new ≡ self.old ++ hash ∷ []) }
        ensures err { OnErr result (self.new ≡ self.old) }
    {
        if self.hashes.len() >= u32::MAX as usize {
            return Err(NoMemory);
        }
        widen(self.alloc, &self.hashes, &mut self.heads, &mut self.links)?;
        self.hashes.reserve(1)?;
        self.links.reserve(1)?;
        put_last(&mut self.hashes, &mut self.heads, &mut self.links, hash);
        Ok(())
    }

    /// A place of this hash that passes, if there is one. The newest places are tried first.
    pub fn find<F: Fn(usize) -> bool>(&self, hash: u32, passes: F) -> Option<usize>
        requires { (place : ℕ) → place < length self.now → F.pre passes place }
        ensures { IsFound self.now hash (F.post passes) result }
    {
        if self.heads.is_empty() {
            return None;
        }
        let mut link = self.heads[bucket_of(hash, self.heads.len())];
        while link > 0 {
            let place = link as usize - 1;
            if self.hashes[place] == hash && passes(place) {
                return Some(place);
            }
            link = self.links[place];
        }
        None
    }
}
