//! What a session holds of its last recheck.
ghost use Rattle.std.specs.Prelude.{◌≡◌, List, None, All, IfOk, IsSomeAnd, IfSome, Err};
ghost use Rattle.std.specs.Bool.{OnTrue};
ghost use Rattle.cvc_base.specs.Answers.{IfAt};
ghost use Rattle.cvc_bind.specs.Bound.{circuit_of};
ghost use Rattle.cvc_flat.specs.Flat.{FlatList};
ghost use Rattle.cvc_law.specs.Least.{IsLeast};
ghost use Rattle.cvc_model.specs.Bindable.{AreBindable};
ghost use Rattle.cvc_model.specs.declared.row.ModelRow.{ModelRow};
ghost use Rattle.cvc_power.specs.declared.row.PowerRow.{PowerRow};
ghost use Rattle.cvc_power.specs.Power.{IsOrdered};
ghost use Rattle.cvc_delta.specs.Found.{IsFound, IsStartIn, kept_in};
ghost use Rattle.cvc_delta.specs.Rows.{AreWiderRows};
ghost use Rattle.cvc_delta.specs.Session.{IsCheckOf};

use crate::laws::widening_keeps_a_base;
use cvc_base::{NoMemory, Refusal};
use cvc_bind::bind;
use cvc_flat::Flat;
use cvc_judge::{Judged, list_all};
use cvc_law::laws::there_is_exactly_one_least_family;
use cvc_law::{Circuit, Family};
use cvc_model::Models;
use cvc_power::Power;
use cvc_serial::{settle_from, settle_serial};
use std::alloc::Global;

/// What a session holds of its last recheck.
#[derive(Drop)]
pub(crate) enum Found {
    /// Nothing.
    Nothing,
    /// Its result, which is that of the present rows.
    Kept(Judged),
    /// Its family. Since then the rows were widened.
    Base(Family),
}

/// What is held behind a set: no result, but a family to start from where the rows are wider.
pub(crate) fn behind_set(found: Found, wider: bool) -> Found
    ensures kept { kept_in result ≡ None }
    ensures held { (f : FlatList) (models : List ModelRow) (rows wides : List PowerRow) → All IsOrdered rows → OnTrue wider (AreWiderRows rows wides)
        → IsFound f models rows found → IsFound f models wides result }
{
    there_is_exactly_one_least_family();
    widening_keeps_a_base();
    if !wider {
        return Found::Nothing;
    }
    match found {
        Found::Nothing => Found::Nothing,
        Found::Kept(
            Judged {
                circuit: _,
                family,
                findings: _,
            },
        ) => Found::Base(family),
        Found::Base(family) => Found::Base(family),
    }
}

// The least family of the circuit, from what is held.
fn settle_again(alloc: Global, circuit: &Circuit, found: &Found) -> Result<Family, NoMemory>
    requires { IsStartIn circuit.now found.now }
    ensures { IfOk result (λ f. IsLeast circuit.now f) }
{
    match found {
        Found::Nothing => settle_serial(alloc, circuit),
        Found::Kept(
            Judged {
                circuit: _,
                family,
                findings: _,
            },
        ) => settle_from(alloc, circuit, family),
        Found::Base(family) => settle_from(alloc, circuit, family),
    }
}

/// The result of a check of these rows, from what is held, or the first fault of binding.
pub(crate) fn check_rows(
    alloc: Global,
    flat: &Flat,
    models: &Models,
    rows: &Power,
    found: &Found,
) -> Result<Judged, Refusal>
    requires bindable { AreBindable models.now }
    requires ordered { All IsOrdered rows.now }
    requires found { IsFound flat.now.list models.now rows.now found.now }
    ensures ok { IfOk result (IsCheckOf flat.now.list models.now rows.now) }
    ensures at { IfAt result (λ fault. circuit_of flat.now.list models.now rows.now ≡ Err fault) }
{
    there_is_exactly_one_least_family();
    let circuit = bind(alloc, flat, models, rows)?;
    let family = settle_again(alloc, &circuit, found)?;
    let findings = list_all(alloc, &circuit, &family)?;
    Ok(Judged {
        circuit,
        family,
        findings,
    })
}
