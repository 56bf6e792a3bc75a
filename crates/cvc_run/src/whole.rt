//! What the files of a run say together: the circuit, and the flat list that it is bound from.
ghost use Rattle.std.specs.Prelude.{◌≡◌, None, All, IfOk, IfSome, length, map};
ghost use Rattle.cvc_cdl.specs.Builder.{named_top};
ghost use Rattle.cvc_law.specs.Bound.{IsBound};
ghost use Rattle.cvc_model.specs.Bindable.{AreBindable};
ghost use Rattle.cvc_power.specs.Power.{IsOrdered};
ghost use Rattle.cvc_io.specs.Files.{content};
ghost use Rattle.cvc_run.specs.Due.{DueFailed, files_due};
ghost use Rattle.cvc_run.specs.Said.{bound_of, bound_with, parts, whole};
ghost use Rattle.cvc_run.specs.Shelves.{Leaves};
ghost use Rattle.cvc_run.specs.Stops.{ReadOnlyWhere, Says};

use crate::RunStop;
use crate::stage::{Refused, Stage};
use crate::stages::{Design, design_of_texts, read_design, read_power_file};
use crate::stop::{as_load, as_step};
use cvc_base::Text;
use cvc_bind::bind;
use cvc_flat::Flat;
use cvc_gen::Generated;
use cvc_io::Shelf;
use cvc_law::Circuit;
use cvc_power::{Power, read_power};
use std::alloc::Global;

/// A circuit, and the flat list that it is bound from.
#[derive(Drop)]
pub struct Whole {
    pub flat: Flat,
    pub circuit: Circuit,
}

// The circuit of a design and power rows.
fn bind_design(alloc: Global, design: Design, power: &Power) -> Result<Whole, RunStop<Refused>>
    requires bindable { AreBindable design.models }
    requires ordered { All IsOrdered power.now }
    ensures said { Says (λ w. whole w.flat.list w.circuit) result (bound_with (parts design.flat.list design.models) power.now) }
    ensures unread { ReadOnlyWhere result ⊥ }
    ensures bound { IfOk result (λ w. IsBound (length w.flat.list.nets) (map (λ d. d.pins) w.flat.list.devices) w.circuit) }
{
    let Design { flat, models } = design;
    let circuit = as_step(Stage::Binding, as_load(bind(alloc, &flat, &models, power)))?;
    Ok(Whole { flat, circuit })
}

/// The circuit of a netlist file, whose top is the cell of this name, a models file and a power file, or why there is none: the first fault comes with its
/// stage. Each file is opened only when all before it were accepted, which is tested. It leaves no file open. `Read` comes only where a file that was due
/// has failed in this call.
pub fn bind_files<S: Shelf>(
    alloc: Global,
    netlist: &Text,
    models: &Text,
    power: &Text,
    top: Option<&Text>,
    shelf: &mut S,
) -> Result<Whole, RunStop<Refused>>
    requires { S.standing shelf.old ≡ None }
    ensures shelf { Leaves (S.standing shelf.new) (S.files shelf.old) (S.files shelf.new) (S.faults shelf.old) (S.faults shelf.new) }
    ensures said { IfSome (S.files shelf.old) (λ fs. Says (λ w. whole w.flat.list w.circuit) result
        (bound_of (named_top top.entry) (content fs netlist.now) (content fs models.now) (content fs power.now))) }
    ensures cause { ReadOnlyWhere result
        (DueFailed (files_due (S.files shelf.old) (named_top top.entry) netlist.now models.now power.now) (S.faults shelf.old) (S.faults shelf.new)) }
    ensures bound { IfOk result (λ w. IsBound (length w.flat.list.nets) (map (λ d. d.pins) w.flat.list.devices) w.circuit) }
{
    let design = read_design(alloc, netlist, models, top, shelf)?;
    let power = read_power_file(alloc, power, shelf)?;
    bind_design(alloc, design, &power)
}

/// The circuit of generated texts, or why there is none. It reads no file.
pub(crate) fn bind_texts(alloc: Global, texts: &Generated) -> Result<Whole, RunStop<Refused>>
    ensures said { Says (λ w. whole w.flat.list w.circuit) result (bound_of None texts.now.netlist texts.now.models texts.now.power) }
    ensures unread { ReadOnlyWhere result ⊥ }
    ensures bound { IfOk result (λ w. IsBound (length w.flat.list.nets) (map (λ d. d.pins) w.flat.list.devices) w.circuit) }
{
    let design = design_of_texts(alloc, &texts.netlist, &texts.models)?;
    let power = as_step(
        Stage::Power,
        as_load(read_power(alloc, texts.power.bytes())),
    )?;
    bind_design(alloc, design, &power)
}
