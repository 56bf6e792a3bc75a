//! Sessions: a design, its declared rows, and the result of the last recheck.
ghost use Rattle.std.specs.Prelude.{◌≡◌, Err, None, All, IfErr, IfOk};
ghost use Rattle.std.specs.Option.{option_map};
ghost use Rattle.cvc_base.specs.Answers.{IfAt};
ghost use Rattle.cvc_bind.specs.Bound.{circuit_of};
ghost use Rattle.cvc_model.specs.Bindable.{AreBindable};
ghost use Rattle.cvc_power.specs.Power.{IsOrdered};
ghost use Rattle.cvc_delta.specs.declared.fault.EditRefusal.TheVariants.{NotThere};
ghost use Rattle.cvc_delta.specs.Edits.{AreApart, numbered, unset_row as rows_left};
ghost use Rattle.cvc_delta.specs.Rows.{AreRows, Edits, set_said, unset_said};
ghost use Rattle.cvc_delta.specs.Session.{Began, Edited, Keeps, Rechecked};

use crate::EditRefusal;
use crate::found::{Found, behind_set, check_rows};
use crate::rows::{number, set_row, unset_row};
use cvc_base::{Findings, Mv, NoMemory, Refusal, Text};
use cvc_flat::Flat;
use cvc_judge::Judged;
use cvc_law::{Circuit, Family};
use cvc_model::Models;
use cvc_power::{Power, PowerRow};
use std::alloc::Global;
use std::marker::Model;
use std::mem;

/// A design, its declared rows, and the result of the last recheck, if it is kept. The k-th row stands at line k, as in a power file. No two rows have one
/// name.
#[derive(Drop)]
pub struct Session<'c> {
    alloc: Global,
    flat: &'c Flat,
    models: &'c Models,
    rows: Power,
    found: Found,
}

impl<'c> Model for Session<'c> {
    ghost use Rattle.cvc_delta.specs.Found.{kept_in, IsSession};
    ghost use Rattle.cvc_delta.specs.Session.{SessionView};

    ghost Value = { SessionView };

    ghost view = { λ s. record { flat = s.flat.now.list; models = s.models.now; rows = s.rows; kept = kept_in s.found } };

    ghost invariant = { λ s. IsSession s.flat.now.list s.models.now s.rows s.found };
}

impl<'c> Session<'c> {
    /// A session of this design, whose rows are these in their order, at the lines of their places. Nothing is checked yet. The names of the rows differ. It
    /// is linear in the rows.
    #[tactic(auto, using(crate::proofs::Holding::begun))]
    pub fn begin(
        alloc: Global,
        flat: &'c Flat,
        models: &'c Models,
        power: Power,
    ) -> Result<Session<'c>, NoMemory>
        // What `read_models` and `read_power` give meets all three.
        requires models { AreBindable models.now }
        requires ordered { All IsOrdered power }
        requires apart { AreApart power }
        ensures flat { IfOk result (λ s. s.flat ≡ flat.now.list) }
        ensures models { IfOk result (λ s. s.models ≡ models.now) }
        ensures rows { IfOk result (λ s. s.rows ≡ numbered power) }
        ensures kept { IfOk result (Keeps Began None) }
    {
        if power.len() > u32::MAX as usize {
            return Err(NoMemory);
        }
        let mut rows = power;
        let spare = PowerRow {
            name: Text::from_vec(Vec::new(alloc)),
            low: Mv::ZERO,
            high: Mv::ZERO,
            line: 0,
        };
        number(&mut rows, spare);
        Ok(Session {
            alloc,
            flat,
            models,
            rows,
            found: Found::Nothing,
        })
    }

    /// The rows, each at the line of its place, from 1.
    pub fn rows(&self) -> &Power
        ensures same { result.now ≡ self.now.rows }
        ensures rows { AreRows self.now.rows }
    {
        &self.rows
    }

    /// Gives the row of this name these bounds, in its place, or puts a new row of this name last. `MinAboveMax` where `low` lies above `high`. It takes time
    /// in proportion to the rows. A refused set changes nothing.
    #[tactic(auto, using(crate::proofs::Holding::session_set))]
    pub fn set(&mut self, name: &[u8], low: Mv, high: Mv) -> Result<(), EditRefusal>
        ensures rows { Edits result (set_said self.old.rows name.now low high) self.old.rows self.new.rows }
        ensures kept { Keeps (Edited result) self.old.kept self.new }
        ensures same { self.new ≡ record self.old { rows = self.new.rows; kept = self.new.kept } }
    {
        if low.get() > high.get() {
            return Err(EditRefusal::MinAboveMax);
        }
        let wider = set_row(self.alloc, &mut self.rows, name, low, high)?;
        let found = mem::replace(&mut self.found, Found::Nothing);
        self.found = behind_set(found, wider);
        Ok(())
    }

    /// Takes the row of this name out; later rows move up. `NotThere` where no row has the name. It takes time in proportion to the rows, and no memory. A
    /// refused unset changes nothing.
    #[tactic(auto, using(crate::proofs::Holding::session_unset))]
    pub fn unset(&mut self, name: &[u8]) -> Result<(), EditRefusal>
        ensures rows { Edits result (unset_said self.old.rows name.now) self.old.rows self.new.rows }
        // Where no row has the name, that leaves the rows as they are.
        ensures left { self.new.rows ≡ rows_left self.old.rows name.now }
        ensures refusal { IfErr result (λ refusal. refusal ≡ NotThere) }
        ensures kept { Keeps (Edited result) self.old.kept self.new }
        ensures same { self.new ≡ record self.old { rows = self.new.rows; kept = self.new.kept } }
    {
        if !unset_row(&mut self.rows, name) {
            return Err(EditRefusal::NotThere);
        }
        self.found = Found::Nothing;
        Ok(())
    }

    /// Checks the rows. `Ok`: their circuit, its least family and all findings are kept. `At` holds the first fault of binding. After any refusal nothing is
    /// kept. It never changes the rows, and always returns. Where rows were only widened since the last result, it starts from the family of that.
    pub fn recheck(&mut self) -> Result<(), Refusal>
        ensures at { IfAt result (λ fault. circuit_of self.old.flat self.old.models self.old.rows ≡ Err fault) }
        ensures kept { Keeps (Rechecked result) self.old.kept self.new }
        ensures same { self.new ≡ record self.old { kept = self.new.kept } }
    {
        let found = mem::replace(&mut self.found, Found::Nothing);
        let judged = check_rows(self.alloc, self.flat, self.models, &self.rows, &found)?;
        self.found = Found::Kept(judged);
        Ok(())
    }

    // The kept result.
    fn kept(&self) -> Option<&Judged>
        ensures { option_map (λ j. j.now) result ≡ self.now.kept }
    {
        match &self.found {
            Found::Kept(judged) => Some(judged),
            _ => None,
        }
    }

    /// The circuit of the kept result, if one is kept.
    pub fn circuit(&self) -> Option<&Circuit>
        ensures { option_map (λ c. c.now) result ≡ option_map (λ j. j.circuit) self.now.kept }
    {
        match self.kept() {
            Some(judged) => Some(&judged.circuit),
            None => None,
        }
    }

    /// The least family of that circuit, if a result is kept.
    pub fn family(&self) -> Option<&Family>
        ensures { option_map (λ f. f.now) result ≡ option_map (λ j. j.family) self.now.kept }
    {
        match self.kept() {
            Some(judged) => Some(&judged.family),
            None => None,
        }
    }

    /// All findings of that family in the report's order, if a result is kept.
    pub fn findings(&self) -> Option<&Findings>
        ensures { option_map (λ f. f.now) result ≡ option_map (λ j. j.findings) self.now.kept }
    {
        match self.kept() {
            Some(judged) => Some(&judged.findings),
            None => None,
        }
    }
}
