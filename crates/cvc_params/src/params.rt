//! What an instance sees as the values of parameters are resolved.
ghost use Rattle.std.specs.Prelude.{◌≡◌, ℕ, ◌<◌, ◌≤◌, ◌-◌, ◌+◌, List, [], ◌∷◌, ◌++◌, suc, IfOk, IfSome, OnOk, is_none, length, take};
ghost use Rattle.std.specs.Option.{option_map};
ghost use Rattle.std.specs.Str.{str_to_ascii_lowercase};
ghost use Rattle.cvc_cdl.specs.Instances.{cell_at, cell_for};
ghost use Rattle.cvc_params.specs.declared.level.Level.{Level};
ghost use Rattle.cvc_base.specs.declared.param.Pair.{Pair};
ghost use Rattle.cvc_params.specs.Levels.{instance_of};
ghost use Rattle.cvc_params.specs.PairIndexes.{IsIndexOf, IsListed};
ghost use Rattle.cvc_params.specs.Sights.{IsSight};
ghost use Rattle.cvc_params.specs.Params.{Inside, Main, given_in, on_card, pairs_above, seen_from, value_of_text};
ghost use Rattle.cvc_params.specs.Seen.{HasLists, IsOnWay, scope_in, use_in, way_to};

use crate::known::Known;
use crate::level::Level;
use crate::pair_index::{PairIndex, PairIndexes, lower_case};
use cvc_base::{NoMemory, Pair, Text, Value};
use cvc_cdl::{Cell, Netlist};
use cvc_units::read_number;
use std::alloc::Global;

/// The numbers of an instance's lists of pairs: that of its card and that of its cell.
#[derive(Clone, Copy)]
pub struct Lists {
    pub card: u32,
    pub cell: u32,
}

/// What the last instance on the way from the top sees: the netlist with the indexes of its lists, the top, whose list has number 0, and each
/// instance on the way. It keeps the last texts of the names that were asked, on the main level, at the top and in each instance on the way.
#[derive(Drop)]
pub struct Sight<'n> {
    pub(crate) alloc: Global,
    pub netlist: &'n Netlist,
    pub indexes: PairIndexes,
    pub(crate) top: &'n Cell,
    pub levels: Vec<Level<'n>>,
    pub(crate) lists: Vec<Lists>,
    pub(crate) main_known: Known<'n>,
    pub(crate) known: Vec<Known<'n>>,
}

// Where a text is resolved: on the main level, or in the instance that is so many levels below the top.
#[derive(Clone, Copy)]
pub(crate) enum Site {
    Main,
    Below(usize),
}

// A text and where it is resolved.
#[derive(Clone, Copy)]
pub(crate) struct Spot<'n> {
    pub text: &'n [u8],
    pub site: Site,
}

// The value of a name, which is given in lower case, in a list whose values are resolved there.
fn spot_in<'n>(index: &PairIndex, pairs: &'n [Pair], low: &[u8], site: Site) -> Option<Spot<'n>>
    requires index { IsIndexOf index.now pairs.now }
    requires lower { str_to_ascii_lowercase low.now ≡ low.now }
    ensures spot { (levels : List Level) → option_map (use_in levels) result ≡ given_in (scope_in levels site) pairs.now low.now }
    ensures site { IfSome result (λ spot. spot.site ≡ site) }
{
    let text = index.value(pairs, low)?;
    Some(Spot { text, site })
}

impl<'n> Sight<'n> {
    /// What the top sees, with the lists of the main level and of the top alone.
    pub fn new(alloc: Global, netlist: &'n Netlist, top: &'n Cell) -> Result<Sight<'n>, NoMemory>
        requires { top.now ≡ cell_at netlist.now [] }
        ensures sight { IfOk result IsSight }
        ensures netlist { IfOk result (λ sight. sight.netlist.now ≡ netlist.now) }
        ensures levels { IfOk result (λ sight. sight.levels.items ≡ []) }
    {
        let mut indexes = PairIndexes::new(alloc, netlist.params.as_slice())?;
        indexes.add(alloc, top.pairs.as_slice())?;
        let mut known = Vec::new(alloc);
        known.push(Known::new(alloc))?;
        Ok(Sight {
            alloc,
            netlist,
            indexes,
            top,
            levels: Vec::new(alloc),
            lists: Vec::new(alloc),
            main_known: Known::new(alloc),
            known,
        })
    }

    // One list of pairs more, and its number.
    pub(crate) fn add(&mut self, alloc: Global, pairs: &[Pair]) -> Result<u32, NoMemory>
        requires { IsSight self.old }
        ensures sight { IfOk result (λ list. IsSight self.new) }
        ensures number { IfOk result (λ list. IsListed self.new.indexes list pairs.now) }
        ensures lists { IfOk result (λ list. (k : ℕ) (others : List Pair) → IsListed self.old.indexes k others → IsListed self.new.indexes k others) }
        ensures netlist { IfOk result (λ list. self.new.netlist.now ≡ self.old.netlist.now) }
        ensures levels { IfOk result (λ list. self.new.levels.items ≡ self.old.levels.items) }
    {
        self.indexes.add(alloc, pairs)
    }

    /// How many levels there are below the top.
    pub fn depth(&self) -> usize
        ensures { result ≡ length self.now.levels.items }
    {
        self.levels.len()
    }

    /// One level more, whose card and cell have the lists of these numbers.
    pub fn enter(&mut self, level: Level<'n>, lists: Lists) -> Result<(), NoMemory>
        requires sight { IsSight self.old }
        requires level { level.cell.now ≡ cell_for self.old.netlist.now level.card.now.cell }
        requires card { IsListed self.old.indexes lists.card level.card.now.pairs }
        requires cell { IsListed self.old.indexes lists.cell level.cell.now.pairs }
        ensures sight { OnOk result (IsSight self.new) }
        ensures levels { OnOk result (self.new.levels.items ≡ self.old.levels.items ++ level.entry ∷ []) }
        ensures same { OnOk result ((self.new.netlist.now ≡ self.old.netlist.now) × (self.new.indexes ≡ self.old.indexes)) }
    {
        self.levels.push(level)?;
        self.lists.push(lists)?;
        self.known.push(Known::new(self.alloc))?;
        Ok(())
    }

    /// One level less.
    pub fn leave(&mut self)
        requires sight { IsSight self.old }
        requires some { 0 < length self.old.levels.items }
        ensures sight { IsSight self.new }
        ensures levels { self.new.levels.items ≡ take (length self.old.levels.items - 1) self.old.levels.items }
        ensures same { (self.new.netlist.now ≡ self.old.netlist.now) × (self.new.indexes ≡ self.old.indexes) }
    {
        self.levels.pop();
        self.lists.pop();
        self.known.pop();
    }

    // The value of a name among the pairs of an instance's card.
    fn on_card(&self, depth: usize, low: &[u8]) -> Option<Spot<'n>>
        requires sight { HasLists self.now }
        requires inside { depth ≤ length self.now.levels.items }
        requires lower { str_to_ascii_lowercase low.now ≡ low.now }
        ensures spot { option_map (use_in self.now.levels.items) result ≡ on_card (way_to self.now.levels.items depth) low.now }
        ensures inside { IfSome result (λ spot. IsOnWay self.now.levels.items spot.site) }
    {
        if depth == 0 {
            return None;
        }
        let card = self.levels[depth - 1].card;
        let list = self.lists[depth - 1].card;
        let index = &self.indexes.lists[list as usize];
        spot_in(index, card.pairs.as_slice(), low, Site::Below(depth - 1))
    }

    // The value of a name among the pairs of an instance's cell.
    fn in_cell(&self, depth: usize, low: &[u8]) -> Option<Spot<'n>>
        requires sight { HasLists self.now }
        requires inside { depth ≤ length self.now.levels.items }
        requires lower { str_to_ascii_lowercase low.now ≡ low.now }
        ensures spot { option_map (use_in self.now.levels.items) result
            ≡ given_in (Inside (way_to self.now.levels.items depth)) (cell_at self.now.netlist.now (way_to self.now.levels.items depth)).pairs low.now }
        ensures inside { IfSome result (λ spot. IsOnWay self.now.levels.items spot.site) }
    {
        if depth == 0 {
            let index = &self.indexes.lists[0];
            return spot_in(index, self.top.pairs.as_slice(), low, Site::Below(0));
        }
        let cell = self.levels[depth - 1].cell;
        let list = self.lists[depth - 1].cell;
        let index = &self.indexes.lists[list as usize];
        spot_in(index, cell.pairs.as_slice(), low, Site::Below(depth))
    }

    // The value of a name among the main level's pairs.
    fn on_main(&self, low: &[u8]) -> Option<Spot<'n>>
        requires sight { HasLists self.now }
        requires lower { str_to_ascii_lowercase low.now ≡ low.now }
        ensures spot { option_map (use_in self.now.levels.items) result ≡ given_in Main self.now.netlist.now.params low.now }
        ensures inside { IfSome result (λ spot. IsOnWay self.now.levels.items spot.site) }
    {
        let pairs = self.netlist.params.as_slice();
        spot_in(&self.indexes.main, pairs, low, Site::Main)
    }

    // What a name stands for.
    pub(crate) fn seen_from(&self, site: Site, low: &[u8]) -> Option<Spot<'n>>
        requires sight { HasLists self.now }
        requires inside { IsOnWay self.now.levels.items site }
        requires lower { str_to_ascii_lowercase low.now ≡ low.now }
        ensures spot { option_map (use_in self.now.levels.items) result ≡ seen_from self.now.netlist.now (scope_in self.now.levels.items site) low.now }
        ensures inside { IfSome result (λ spot. IsOnWay self.now.levels.items spot.site) }
    {
        if let Site::Below(depth) = site {
            if let Some(spot) = self.on_card(depth, low) {
                return Some(spot);
            }
            if let Some(spot) = self.in_cell(depth, low) {
                return Some(spot);
            }
        }
        self.on_main(low)
    }

    // How many pairs can be passed.
    pub(crate) fn pairs_above(&self) -> Result<usize, NoMemory>
        requires { HasLists self.now }
        ensures { IfOk result (λ count. count ≡ pairs_above self.now.netlist.now (instance_of self.now.levels.items)) }
    {
        let mut count = sum(self.top.pairs.len(), self.netlist.params.len())?;
        for level in self.levels.as_slice() {
            count = sum(sum(level.card.pairs.len(), level.cell.pairs.len())?, count)?;
        }
        Ok(count)
    }

    // Where the value of a device's pair is resolved.
    pub(crate) fn last_spot(&self, pair: &'n Pair) -> Spot<'n>
        ensures spot { use_in self.now.levels.items result ≡ record { text = pair.now.value; scope = Inside (instance_of self.now.levels.items) } }
        ensures inside { IsOnWay self.now.levels.items result.site }
    {
        Spot {
            text: pair.value.bytes(),
            site: Site::Below(self.levels.len()),
        }
    }
}

// A sum of lengths of lists that are in memory.
fn sum(some: usize, more: usize) -> Result<usize, NoMemory>
    ensures { IfOk result (λ all. all ≡ some + more) }
{
    match some.checked_add(more) {
        Some(all) => Ok(all),
        None => Err(NoMemory),
    }
}

// A text as a value: its number, or the text itself as a word.
pub(crate) fn value_of(alloc: Global, text: &[u8]) -> Result<Value, NoMemory>
    ensures { IfOk result (λ value. value ≡ value_of_text text.now) }
{
    match read_number(text) {
        Ok(number) => Ok(Value::Number(number)),
        Err(_) => Ok(Value::Word(Text::of(alloc, text)?)),
    }
}
