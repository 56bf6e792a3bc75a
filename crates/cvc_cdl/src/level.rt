//! What stands on one level.
ghost use Rattle.std.specs.Prelude.{◌≡◌, [], ◌∷◌, ◌++◌, length};
ghost use Rattle.cvc_names.specs.Chains.{text_hash};
ghost use Rattle.cvc_cdl.specs.Building.{is_among};
ghost use Rattle.cvc_cdl.specs.Drafting.{Becomes, item_cause, item_names};

use crate::netlist::{Item, Items};
use cvc_base::{Cause, NoMemory, Stop};
use cvc_names::{Chains, hash_of};
use std::alloc::Global;
use std::marker::Model;

/// The devices and instances of a level, of which no two have one name. Contracts see it as the list of its items.
#[derive(Drop)]
pub(crate) struct Level {
    items: Items,
    // the places of the items by the hashes of their names
    chains: Chains,
}

impl Model for Level {
    ghost use Rattle.std.specs.Prelude.{◌≡◌, List, map};
    ghost use Rattle.cvc_cdl.specs.declared.netlist.Item.{Item};
    ghost use Rattle.cvc_cdl.specs.Building.{hash_of_item};

    ghost Value = { List Item };

    ghost view = { λ l. l.items };

    ghost invariant = { λ l. l.chains ≡ map hash_of_item l.items };
}

impl Level {
    /// An empty level.
    pub(crate) fn new(alloc: Global) -> Level
        ensures { result ≡ [] }
    {
        Level {
            items: Items::new(alloc),
            chains: Chains::new(alloc),
        }
    }

    /// How many items stand here.
    pub(crate) fn len(&self) -> usize
        ensures { result ≡ length self.now }
    {
        self.items.len()
    }

    /// All items, in order.
    pub(crate) fn as_slice(&self) -> &[Item]
        ensures { result.now ≡ self.now }
    {
        self.items.as_slice()
    }

    /// Its items, in order, without a copy.
    pub(crate) fn into_items(self) -> Items
        ensures { result ≡ self }
    {
        let Level { items, chains: _ } = self;
        items
    }

    // Whether an item has this name, which has this hash.
    fn has(&self, hash: u32, name: &[u8]) -> bool
        requires { hash ≡ text_hash name.now }
        ensures { result ≡ is_among (item_names self.now) name.now }
    {
        self.chains
            .find(hash, |place| self.items.get(place).name() == name)
            .is_some()
    }

    /// Puts an item last, unless its name is taken.
    pub(crate) fn add(&mut self, item: Item) -> Result<(), Stop>
        ensures { Becomes (item_cause (item_names self.old) item) (self.old ++ item ∷ []) self.new result }
    {
        let hash = hash_of(item.name());
        if self.has(hash, item.name()) {
            return Err(Stop::At(Cause::TwiceName));
        }
        self.items.push(item)?;
        if let Err(NoMemory) = self.chains.push(hash) {
            self.items.remove(self.items.len() - 1);
            return Err(Stop::NoMemory);
        }
        Ok(())
    }
}
