//! The parameters of a device: its pairs, each value followed from name to name up to a number or a word. In an instance no name is followed twice.
ghost use Rattle.std.specs.Prelude.{◌≡◌, [], All, suc, IfOk, IfSome, OnOk, is_none};
ghost use Rattle.std.specs.Option.{option_map};
ghost use Rattle.cvc_params.specs.Sights.{AreAnswers, IsAnsweredBy, IsSight, IsStep, SeesTheSame};
ghost use Rattle.cvc_params.specs.Levels.{instance_of};
ghost use Rattle.cvc_params.specs.Params.{last_text, pairs_above, param_in, params_in};
ghost use Rattle.cvc_params.specs.Places.{has_loop};
ghost use Rattle.cvc_params.specs.Seen.{IsOnWay, scope_in, use_in};

use crate::known::Known;
use crate::pair_index::lower_case;
use crate::params::{Sight, Site, Spot, value_of};
use cvc_base::{NoMemory, Pair, Pairs, Param, Params, Text};
use cvc_units::read_number;
use std::alloc::Global;

// What comes of a text: a last text, or what it stands for.
#[derive(Clone, Copy)]
pub(crate) enum Step<'n> {
    End(&'n [u8]),
    On(Spot<'n>),
}

impl<'n> Sight<'n> {
    // What is known of names there.
    fn known_at(&self, site: Site) -> &Known<'n>
        requires sight { IsSight self.now }
        requires inside { IsOnWay self.now.levels.items site }
        ensures { AreAnswers self.now.netlist.now (scope_in self.now.levels.items site) result.now }
    {
        match site {
            Site::Main => &self.main_known,
            Site::Below(depth) => &self.known[depth],
        }
    }

    // One step: the last text where it is known or no name is visible, or what the name stands for.
    fn step(&self, alloc: Global, spot: Spot<'n>) -> Result<Step<'n>, NoMemory>
        requires sight { IsSight self.now }
        requires inside { IsOnWay self.now.levels.items spot.site }
        ensures { IfOk result (λ step. IsStep self.now.netlist.now self.now.levels.items spot.entry step) }
    {
        if read_number(spot.text).is_ok() {
            return Ok(Step::End(spot.text));
        }
        let low = lower_case(alloc, spot.text)?;
        if let Some(end) = self.known_at(spot.site).find(low.as_slice()) {
            return Ok(Step::End(end));
        }
        match self.seen_from(spot.site, low.as_slice()) {
            Some(seen) => Ok(Step::On(seen)),
            None => Ok(Step::End(spot.text)),
        }
    }

    // The text at the end, after at most so many steps, with the names on the way to it, or `None` where they lead on.
    fn follow(
        &self,
        alloc: Global,
        steps: usize,
        start: Spot<'n>,
        trail: &mut Vec<Spot<'n>>,
    ) -> Result<Option<&'n [u8]>, NoMemory>
        requires sight { IsSight self.now }
        requires steps { steps ≡ pairs_above self.now.netlist.now (instance_of self.now.levels.items) }
        requires inside { IsOnWay self.now.levels.items start.site }
        requires empty { trail.old.items ≡ [] }
        ensures last { IfOk result (λ last. option_map (λ text. text.now) last
            ≡ last_text self.now.netlist.now (suc (pairs_above self.now.netlist.now (instance_of self.now.levels.items)))
            (use_in self.now.levels.items start.entry)) }
        ensures trail { IfOk result (λ last. IfSome last (λ text. All (IsAnsweredBy self.now.netlist.now self.now.levels.items text.now) trail.new.items)) }
    {
        let mut left = steps;
        let mut spot = start;
        'chain: loop {
            match self.step(alloc, spot)? {
                Step::End(end) => return Ok(Some(end)),
                Step::On(seen) => {
                    if left == 0 {
                        return Ok(None);
                    }
                    left -= 1;
                    trail.push(spot)?;
                    spot = seen;
                }
            }
        }
    }

    // Keeps the last text of a name.
    fn keep(&mut self, asked: Spot<'n>, end: &'n [u8]) -> Result<(), NoMemory>
        requires sight { IsSight self.old }
        requires answered { IsAnsweredBy self.old.netlist.now self.old.levels.items end.now asked }
        ensures sight { OnOk result (IsSight self.new) }
        ensures same { OnOk result (SeesTheSame self.old self.new) }
    {
        let low = lower_case(self.alloc, asked.text)?;
        match asked.site {
            Site::Main => self.main_known.keep(low, end),
            Site::Below(depth) => {
                let known = &mut self.known[depth];
                known.keep(low, end)
            }
        }
    }

    // Keeps the last text of all these names.
    fn keep_all(&mut self, trail: Vec<Spot<'n>>, end: &'n [u8]) -> Result<(), NoMemory>
        requires sight { IsSight self.old }
        requires answered { All (IsAnsweredBy self.old.netlist.now self.old.levels.items end.now) trail.items }
        ensures sight { OnOk result (IsSight self.new) }
        ensures same { OnOk result (SeesTheSame self.old self.new) }
    {
        let mut rest = trail;
        while let Some(asked) = rest.pop() {
            self.keep(asked, end)?;
        }
        Ok(())
    }

    // A parameter of a device, or `None` where its value is a loop.
    fn param(
        &mut self,
        alloc: Global,
        steps: usize,
        pair: &'n Pair,
    ) -> Result<Option<Param>, NoMemory>
        requires sight { IsSight self.old }
        requires steps { steps ≡ pairs_above self.old.netlist.now (instance_of self.old.levels.items) }
        ensures sight { OnOk result (IsSight self.new) }
        ensures same { OnOk result (SeesTheSame self.old self.new) }
        ensures param { IfOk result (λ param. param ≡ param_in self.old.netlist.now (instance_of self.old.levels.items) pair.now) }
    {
        let start = self.last_spot(pair);
        let mut trail = Vec::new(alloc);
        let Some(text) = self.follow(alloc, steps, start, &mut trail)? else {
            return Ok(None);
        };
        self.keep_all(trail, text)?;
        let name = Text::of(alloc, pair.name.bytes())?;
        let value = value_of(alloc, text)?;
        Ok(Some(Param { name, value }))
    }

    /// The parameters of a device with these pairs, in their order, or `None` where one of them is a loop. Time is linear in the levels, in the pairs
    /// and in the names that are asked where they stand for the first time; a loop takes as many steps as there are pairs to see.
    pub fn params_of(&mut self, alloc: Global, pairs: &'n Pairs) -> Result<Option<Params>, NoMemory>
        requires { IsSight self.old }
        ensures sight { OnOk result (IsSight self.new) }
        ensures same { OnOk result (SeesTheSame self.old self.new) }
        ensures found { IfOk result (λ found. found ≡ params_in self.old.netlist.now (instance_of self.old.levels.items) pairs.now) }
        ensures looped { IfOk result (λ found. is_none found ≡ has_loop self.old.netlist.now (instance_of self.old.levels.items) pairs.now) }
    {
        let steps = self.pairs_above()?;
        let mut params = Params::new(alloc);
        params.reserve(pairs.len())?;
        for pair in pairs.as_slice() {
            match self.param(alloc, steps, pair)? {
                Some(param) => params.push(param)?,
                None => return Ok(None),
            }
        }
        Ok(Some(params))
    }
}
