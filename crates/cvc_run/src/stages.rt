//! The steps of a run, from a file or a text to what it says.
ghost use Rattle.std.specs.Prelude.{◌≡◌, None, All, IfOk, IfSome};
ghost use Rattle.cvc_cdl.specs.Builder.{named_top};
ghost use Rattle.cvc_cdl.specs.WellFormed.{IsWellFormed};
ghost use Rattle.cvc_base.specs.Answers.{Gives};
ghost use Rattle.cvc_flat.specs.Flat.{flat_of, limits};
ghost use Rattle.cvc_io.specs.Causes.{Rose};
ghost use Rattle.cvc_io.specs.Files.{content};
ghost use Rattle.cvc_model.specs.Bindable.{AreBindable};
ghost use Rattle.cvc_model.specs.Models.{models_of};
ghost use Rattle.cvc_power.specs.Power.{IsOrdered, power_of};
ghost use Rattle.cvc_run.specs.Due.{DueFailed, design_due};
ghost use Rattle.cvc_run.specs.Loads.{OfContent};
ghost use Rattle.cvc_run.specs.Said.{design_of, flat_of_file, parts};
ghost use Rattle.cvc_run.specs.Shelves.{Leaves};
ghost use Rattle.cvc_run.specs.Stages.{at_stage};
ghost use Rattle.cvc_run.specs.Stops.{ReadOnlyWhere, Says, SaysByFile};
ghost use Rattle.cvc_run.specs.declared.stage.Stage.TheVariants as steps;

use crate::load::load_file;
use crate::netlist::{load_netlist, netlist_of};
use crate::stage::{Refused, Stage};
use crate::stop::{as_load, as_step};
use crate::{LoadFault, RunStop};
use cvc_base::{Refusal, Text};
use cvc_cdl::Netlist;
use cvc_flat::{Flat, flatten};
use cvc_io::Shelf;
use cvc_model::{Models, read_models};
use cvc_power::{Power, read_power};
use std::alloc::Global;

// The most bytes of a models file and of a power file.
const ROWS_LIMIT: u64 = 16_777_216;

/// A netlist as its flat list, and the model rows.
#[derive(Drop)]
pub struct Design {
    pub flat: Flat,
    pub models: Models,
}

// The flat list of a netlist, which is let go.
fn flatten_netlist(alloc: Global, netlist: Netlist) -> Result<Flat, Refusal>
    requires { IsWellFormed netlist }
    ensures { Gives (λ flat. flat.list) result (flat_of limits netlist) }
{
    flatten(alloc, &netlist)
}

// The flat list of the netlist file of this name.
fn load_flat<S: Shelf>(
    alloc: Global,
    name: &Text,
    top: Option<&[u8]>,
    shelf: &mut S,
) -> Result<Flat, LoadFault>
    requires { S.standing shelf.old ≡ None }
    ensures flat { OfContent (S.files shelf.old) name.now (λ content. Says (λ flat. flat.list) result (flat_of_file (named_top top.entry) content)) }
    ensures cause { ReadOnlyWhere result (Rose (S.faults shelf.old name.now) (S.faults shelf.new name.now)) }
    ensures shelf { Leaves (S.standing shelf.new) (S.files shelf.old) (S.files shelf.new) (S.faults shelf.old) (S.faults shelf.new) }
{
    let netlist = load_netlist(alloc, name.bytes(), top, shelf)?;
    as_load(flatten_netlist(alloc, netlist))
}

// The rows of the models file of this name.
fn load_models<S: Shelf>(alloc: Global, name: &Text, shelf: &mut S) -> Result<Models, LoadFault>
    requires { S.standing shelf.old ≡ None }
    ensures rows { OfContent (S.files shelf.old) name.now (λ content. Says (λ rows. rows) result (models_of content)) }
    ensures bindable { IfOk result AreBindable }
    ensures cause { ReadOnlyWhere result (Rose (S.faults shelf.old name.now) (S.faults shelf.new name.now)) }
    ensures shelf { Leaves (S.standing shelf.new) (S.files shelf.old) (S.files shelf.new) (S.faults shelf.old) (S.faults shelf.new) }
{
    let text = load_file(alloc, name, ROWS_LIMIT, shelf)?;
    as_load(read_models(alloc, text.bytes()))
}

// The rows of the power file of this name.
fn load_power<S: Shelf>(alloc: Global, name: &Text, shelf: &mut S) -> Result<Power, LoadFault>
    requires { S.standing shelf.old ≡ None }
    ensures rows { OfContent (S.files shelf.old) name.now (λ content. Says (λ rows. rows) result (power_of content)) }
    ensures ordered { IfOk result (All IsOrdered) }
    ensures cause { ReadOnlyWhere result (Rose (S.faults shelf.old name.now) (S.faults shelf.new name.now)) }
    ensures shelf { Leaves (S.standing shelf.new) (S.files shelf.old) (S.files shelf.new) (S.faults shelf.old) (S.faults shelf.new) }
{
    let text = load_file(alloc, name, ROWS_LIMIT, shelf)?;
    as_load(read_power(alloc, text.bytes()))
}

// The bytes of a name, if there is one.
fn name_bytes(name: Option<&Text>) -> Option<&[u8]>
    ensures { named_top result ≡ named_top name.entry }
{
    match name {
        Some(text) => Some(text.bytes()),
        None => None,
    }
}

/// The flat list and the model rows of two files, as a run reads them: the first fault comes with its stage. The models are opened only when the netlist
/// is accepted, which is tested. It leaves no file open. `Read` comes only where a file that was due has failed in this call.
pub fn read_design<S: Shelf>(
    alloc: Global,
    netlist: &Text,
    models: &Text,
    top: Option<&Text>,
    shelf: &mut S,
) -> Result<Design, RunStop<Refused>>
    requires { S.standing shelf.old ≡ None }
    ensures design { IfSome (S.files shelf.old) (λ fs. Says (λ d. parts d.flat.list d.models) result
        (design_of (named_top top.entry) (content fs netlist.now) (content fs models.now))) }
    ensures bindable { IfOk result (λ d. AreBindable d.models) }
    ensures cause { ReadOnlyWhere result
        (DueFailed (design_due (S.files shelf.old) (named_top top.entry) netlist.now models.now) (S.faults shelf.old) (S.faults shelf.new)) }
    ensures shelf { Leaves (S.standing shelf.new) (S.files shelf.old) (S.files shelf.new) (S.faults shelf.old) (S.faults shelf.new) }
{
    let flat = as_step(
        Stage::Netlist,
        load_flat(alloc, netlist, name_bytes(top), shelf),
    )?;
    let models = as_step(Stage::Models, load_models(alloc, models, shelf))?;
    Ok(Design { flat, models })
}

/// The flat list of a netlist file, whose top is the cell of this name, and the rows of a models file. The models are opened only when the netlist is
/// accepted, which is tested. It leaves no file open.
///
/// `At` is the first fault of the netlist, of its flat list and of the models, in this order, and its file tells which of the two files is refused.
/// `Read` comes only where a file that was due has failed in this call.
pub fn load_design<S: Shelf>(
    alloc: Global,
    netlist: &Text,
    models: &Text,
    top: Option<&Text>,
    shelf: &mut S,
) -> Result<Design, LoadFault>
    requires { S.standing shelf.old ≡ None }
    ensures design { IfSome (S.files shelf.old) (λ fs. SaysByFile (λ d. parts d.flat.list d.models) result
        (design_of (named_top top.entry) (content fs netlist.now) (content fs models.now))) }
    ensures bindable { IfOk result (λ d. AreBindable d.models) }
    ensures cause { ReadOnlyWhere result
        (DueFailed (design_due (S.files shelf.old) (named_top top.entry) netlist.now models.now) (S.faults shelf.old) (S.faults shelf.new)) }
    ensures shelf { Leaves (S.standing shelf.new) (S.files shelf.old) (S.files shelf.new) (S.faults shelf.old) (S.faults shelf.new) }
{
    match read_design(alloc, netlist, models, top, shelf) {
        Ok(design) => Ok(design),
        Err(stop) => Err(stop.load_fault()),
    }
}

/// The power rows of the file of this name, as a run reads them: the first fault comes with its stage. It leaves no file open. `Read` comes only where the
/// name has failed in this call.
pub fn read_power_file<S: Shelf>(
    alloc: Global,
    name: &Text,
    shelf: &mut S,
) -> Result<Power, RunStop<Refused>>
    requires { S.standing shelf.old ≡ None }
    ensures rows { OfContent (S.files shelf.old) name.now (λ content. Says (λ rows. rows) result (at_stage steps.Power (power_of content))) }
    ensures ordered { IfOk result (All IsOrdered) }
    ensures cause { ReadOnlyWhere result (Rose (S.faults shelf.old name.now) (S.faults shelf.new name.now)) }
    ensures shelf { Leaves (S.standing shelf.new) (S.files shelf.old) (S.files shelf.new) (S.faults shelf.old) (S.faults shelf.new) }
{
    as_step(Stage::Power, load_power(alloc, name, shelf))
}

// The flat list of a netlist text, whose top is left open.
fn flat_of_text(alloc: Global, text: &Text) -> Result<Flat, Refusal>
    ensures { Gives (λ flat. flat.list) result (flat_of_file None text.now) }
{
    let netlist = netlist_of(alloc, text.bytes(), None)?;
    flatten_netlist(alloc, netlist)
}

/// The flat list and the model rows of two texts.
pub(crate) fn design_of_texts(
    alloc: Global,
    netlist: &Text,
    models: &Text,
) -> Result<Design, RunStop<Refused>>
    ensures design { Says (λ d. parts d.flat.list d.models) result (design_of None netlist.now models.now) }
    ensures bindable { IfOk result (λ d. AreBindable d.models) }
    ensures unread { ReadOnlyWhere result ⊥ }
{
    let flat = as_step(Stage::Netlist, as_load(flat_of_text(alloc, netlist)))?;
    let models = as_step(Stage::Models, as_load(read_models(alloc, models.bytes())))?;
    Ok(Design { flat, models })
}
