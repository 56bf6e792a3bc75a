//! The list type of which every list of items is one.
ghost use Rattle.std.specs.Prelude.{◌≡◌, ◌<◌, [], ◌∷◌, ◌++◌, ◌==◌, length, slice_set, slice_index_or, OnOk, OnErr};
ghost use Rattle.std.specs.List.{remove};

use crate::NoMemory;
use std::alloc::Global;
use std::marker::Model;
use std::mem;

/// A list of items. Contracts see it as the list of their values.
#[derive(Debug, Drop)]
pub struct ItemList<T> {
    items: Vec<T>,
}

impl<T> Model for ItemList<T> {
    ghost use Rattle.std.specs.Prelude.{List};

    ghost Value = { List T };

    ghost view = { λ l. l.items.items };
}

impl<T> ItemList<T> {
    /// The empty list, which grows with this allocator.
    pub fn new(alloc: Global) -> ItemList<T>
        ensures { result ≡ [] }
    {
        ItemList {
            items: Vec::new(alloc),
        }
    }

    /// How many items it has.
    pub fn len(&self) -> usize
        ensures { result ≡ length self.now }
    {
        self.items.len()
    }

    /// Whether it has no item.
    pub fn is_empty(&self) -> bool
        ensures { result ≡ (length self.now == 0) }
    {
        self.items.is_empty()
    }

    /// The item at place `i`, from 0.
    pub fn get(&self, i: usize) -> &T
        requires { i < length self.now }
        ensures { result.now ≡ slice_index_or self.now i result.now }
    {
        &self.items[i]
    }

    /// All items, in order.
    pub fn as_slice(&self) -> &[T]
        ensures { result.now ≡ self.now }
    {
        self.items.as_slice()
    }

    /// Puts an item in the place of another, which it gives back.
    pub fn replace(&mut self, i: usize, item: T) -> T
        requires { i < length self.old }
        ensures after { self.new ≡ slice_set self.old i item }
        ensures before { result ≡ slice_index_or self.old i result }
    {
        mem::replace(&mut self.items[i], item)
    }

    /// Takes an item out. The later ones move up by one place, in time linear in their number.
    pub fn remove(&mut self, i: usize) -> T
        requires { i < length self.old }
        ensures after { self.new ≡ remove self.old i }
        ensures before { result ≡ slice_index_or self.old i result }
    {
        self.items.remove(i)
    }

    /// Makes room for `n` more items, so that so many are put last without a move of the others; in an empty list for just so many. The list
    /// stays as it is.
    pub fn reserve(&mut self, n: usize) -> Result<(), NoMemory>
        ensures { self.new ≡ self.old }
    {
        if self.items.is_empty() {
            self.items.reserve_exact(n)?;
        } else {
            self.items.reserve(n)?;
        }
        Ok(())
    }

    /// Its items, in order, without a copy.
    pub fn into_vec(self) -> Vec<T>
        ensures { result.items ≡ self }
    {
        let ItemList { items } = self;
        items
    }

    /// Puts an item last. Without memory the list stays as it was, and the item is dropped.
    pub fn push(&mut self, item: T) -> Result<(), NoMemory>
    where
        T: Drop,
        ensures ok { OnOk result (self.new ≡ self.old ++ item ∷ []) }
        ensures err { OnErr result (self.new ≡ self.old) }
    {
        self.items.push(item)?;
        Ok(())
    }
}
