//! The builder of a netlist.
ghost use Rattle.std.specs.Prelude.{◌≡◌, [], ◌∷◌, ◌++◌, List, Some, None, Ok, Err, IfOk, IfSome};
ghost use Rattle.cvc_card.specs.Formed.{IsFormed};

use crate::draft::Draft;
use crate::netlist::Netlist;
use cvc_base::{FileKind, NoMemory, Refusal};
use cvc_card::Card;
use std::alloc::Global;
use std::marker::Model;

/// Takes the cards of a netlist one by one, in file order. It stands for the list of the cards that it was given, with their first lines.
#[derive(Drop)]
pub struct Builder {
    refused: Option<Refusal>,
    draft: Draft,
}

impl Model for Builder {
    ghost use Rattle.cvc_cdl.specs.Builder.{Building};

    ghost Value = { Building };

    ghost use Rattle.cvc_cdl.specs.Drafting.{draft_held};

    ghost view = { λ b. record { refused = b.refused; draft = draft_held b.draft } };

    ghost use Rattle.std.specs.Prelude.{◌≡◌, None};
    ghost use Rattle.cvc_cdl.specs.Drafting.{AreNamed};

    ghost invariant = { λ b. b.refused ≡ None → AreNamed (draft_held b.draft) };
}

impl Builder {
    ghost use Rattle.cvc_cdl.specs.Levels.{Entry};
    ghost use Rattle.cvc_cdl.specs.Building.{building_fault};
    ghost use Rattle.cvc_cdl.specs.Ending.{reading_of};
    ghost use Rattle.cvc_cdl.specs.WellFormed.{IsWellFormed};
    ghost use Rattle.cvc_base.specs.Answers.{IfAt, Refuses, refusal_in};
    ghost use Rattle.cvc_cdl.specs.Builder.{StandsFor, entry_of, named_top};

    /// A builder that was given no card.
    pub fn new(alloc: Global) -> Result<Builder, NoMemory>
        ensures stands { IfOk result (λ b. StandsFor b []) }
        ensures fresh { IfOk result (λ b. b.refused ≡ None) }
    {
        Ok(Builder {
            refused: None,
            draft: Draft::new(alloc),
        })
    }

    /// Takes the next card, whose first line is `line`. A device card has as many nets as its letter, and no card connects a port twice
    /// by name, as every card that `read_card` answers.
    ///
    /// It refuses with the first of these: a cell that begins inside a cell (`NestedSubckt`), has the name of an earlier one
    /// (`TwiceCell`) or names a port twice (`TwicePort`); an end outside of a cell (`StrayEnds`) or of another name (`EndsName`); a
    /// device or an instance whose name is taken on its level (`TwiceName`). A refusal is kept. It takes the time of the card.
    pub fn add(&mut self, card: Card, line: u32) -> Result<(), Refusal>
        requires { IsFormed line card }
        ensures stands { (entries : List Entry) → StandsFor self.old entries → StandsFor self.new (entries ++ entry_of card line ∷ []) }
        ensures refuses { (entries : List Entry) → StandsFor self.old entries → Refuses (building_fault (entries ++ entry_of card line ∷ [])) result }
        ensures refused { self.new.refused ≡ refusal_in result }
        ensures kept { IfSome self.old.refused (λ r. (result ≡ Err r) × (self.new ≡ self.old)) }
    {
        if let Some(refusal) = self.refused {
            return Err(refusal);
        }
        match self.draft.add(card, line) {
            Ok(()) => Ok(()),
            Err(stop) => {
                let refusal = stop.on(FileKind::Netlist, line);
                self.refused = Some(refusal);
                Err(refusal)
            }
        }
    }

    /// Ends the netlist. Its top is the cell that is asked for; else the main level, if a device or an instance stands there; else the
    /// last cell, if there is one; else the empty main level.
    ///
    /// It refuses with the first of these: a cell without its end (`OpenSubckt`); in file order an instance of a cell that isn't there
    /// (`UnknownCell`), with another number of nets than its cell has ports (`PortCount`) or of a name that is no port (`UnknownPort`);
    /// in file order an instance of a cell that contains itself, or that leads to one that does (`Recursive`); a top that is no cell
    /// (`NoTop`, at line 0). It takes time linear in the cards, and needs no depth of calls that grows with them.
    pub fn finish(self, top: Option<&[u8]>) -> Result<Netlist, Refusal>
        ensures netlist { (entries : List Entry) → StandsFor self entries → IfOk result (λ n. reading_of entries (named_top top.entry) ≡ Ok n) }
        ensures fault { (entries : List Entry) → StandsFor self entries → IfAt result (λ fault. reading_of entries (named_top top.entry) ≡ Err fault) }
        ensures well_formed { (entries : List Entry) → StandsFor self entries → IfOk result IsWellFormed }
        ensures kept { IfSome self.refused (λ r. result ≡ Err r) }
    {
        if let Some(refusal) = self.refused {
            return Err(refusal);
        }
        self.draft.finish(top)
    }
}
