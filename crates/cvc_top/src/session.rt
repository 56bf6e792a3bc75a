//! The run of an edit session: a design whose declared supplies are edited and checked again.
ghost use Rattle.std.specs.Prelude.{◌≡◌, ◌≤◌, None, All, IfOk, IfSome};
ghost use Rattle.cvc_cdl.specs.Builder.{named_top};
ghost use Rattle.cvc_delta.specs.Edits.{AreApart, IsOrderedEdit};
ghost use Rattle.cvc_delta.specs.Reading.{edits_of};
ghost use Rattle.cvc_io.specs.Causes.{Rose};
ghost use Rattle.cvc_power.specs.Power.{IsOrdered};
ghost use Rattle.cvc_run.specs.Due.{DueFailed};
ghost use Rattle.cvc_run.specs.Lines.{run_refused_ending};
ghost use Rattle.cvc_run.specs.Loads.{OfContent};
ghost use Rattle.cvc_run.specs.Outside.{taken};
ghost use Rattle.cvc_run.specs.Run.{Answers};
ghost use Rattle.cvc_run.specs.Shelves.{Leaves};
ghost use Rattle.cvc_run.specs.Stops.{IfAt, ReadOnlyWhere, Says};
ghost use Rattle.cvc_top.specs.Sessions.{
  IsOfSession,
  IsReady,
  about_edits,
  edits_stop as edits_stop_of,
  inputs_in,
  inputs_view,
  power_stop as power_stop_of,
  session_due,
  session_files,
  session_run,
  supplies_in,
};

use crate::rechecks::run_edits;
use cvc_base::{Refusal, Text};
use cvc_delta::laws::rows_of_a_power_file_are_apart;
use cvc_delta::{Edits, EditsCause, EditsRefusal, read_edits};
use cvc_io::{Shelf, Sink};
use cvc_power::{Power, read_power};
use cvc_rows::Refused as RowsRefused;
use cvc_run::{
    Design, LineCause, LineRefused, Refused, RunRefused, RunStop, Stage, Status, Subject,
    load_text, read_design, tell_run,
};
use std::alloc::Global;

// The most bytes of a power file and of an edits file.
const ROWS_LIMIT: u64 = 16_777_216;

/// What a session begins with, and its edits.
#[derive(Drop)]
pub(crate) struct Inputs {
    pub(crate) design: Design,
    pub(crate) power: Power,
    pub(crate) edits: Edits,
}

// Why there are no power rows.
fn power_stop(refusal: Refusal) -> RunStop<RunRefused>
    ensures { result ≡ power_stop_of refusal }
{
    match refusal {
        Refusal::At(fault) => RunStop::At(RunRefused::At(Refused {
            stage: Stage::Power,
            fault,
        })),
        Refusal::NoMemory => RunStop::NoMemory,
    }
}

// Why there are no edits.
fn edits_stop(refusal: EditsRefusal) -> RunStop<RunRefused>
    ensures { result ≡ edits_stop_of refusal }
{
    match refusal {
        RowsRefused::At(fault) => RunStop::At(RunRefused::Line(LineRefused {
            subject: Subject::Edits,
            line: fault.line,
            cause: match fault.cause {
                EditsCause::Text(cause) => LineCause::Text(cause),
                EditsCause::NotThere => LineCause::NotThere,
            },
        })),
        RowsRefused::NoMemory => RunStop::NoMemory,
    }
}

// The rows of the power file of this name, no two of which have one name.
fn read_supplies<S: Shelf>(
    alloc: Global,
    name: &Text,
    shelf: &mut S,
) -> Result<Power, RunStop<RunRefused>>
    requires { S.standing shelf.old ≡ None }
    ensures shelf { Leaves (S.standing shelf.new) (S.files shelf.old) (S.files shelf.new) (S.faults shelf.old) (S.faults shelf.new) }
    ensures rows { OfContent (S.files shelf.old) name.now (λ content. Says (λ rows. rows) result (supplies_in content)) }
    ensures ordered { IfOk result (All IsOrdered) }
    ensures apart { IfOk result AreApart }
    ensures own { IfAt result (λ refusal. IsOfSession (run_refused_ending refusal).status) }
    ensures cause { ReadOnlyWhere result (Rose (S.faults shelf.old name.now) (S.faults shelf.new name.now)) }
{
    rows_of_a_power_file_are_apart();
    let text = load_text::<RunRefused, S>(alloc, name, ROWS_LIMIT, shelf)?;
    match read_power(alloc, text.bytes()) {
        Ok(rows) => Ok(rows),
        Err(refusal) => Err(power_stop(refusal)),
    }
}

// The edits in the file of this name, of these rows.
fn read_edits_file<S: Shelf>(
    alloc: Global,
    name: &Text,
    power: &Power,
    shelf: &mut S,
) -> Result<Edits, RunStop<RunRefused>>
    requires { S.standing shelf.old ≡ None }
    ensures shelf { Leaves (S.standing shelf.new) (S.files shelf.old) (S.files shelf.new) (S.faults shelf.old) (S.faults shelf.new) }
    ensures edits { OfContent (S.files shelf.old) name.now (λ content. Says (λ edits. edits) result (about_edits (edits_of power.now content))) }
    ensures ordered { IfOk result (All IsOrderedEdit) }
    ensures own { IfAt result (λ refusal. IsOfSession (run_refused_ending refusal).status) }
    ensures cause { ReadOnlyWhere result (Rose (S.faults shelf.old name.now) (S.faults shelf.new name.now)) }
{
    let text = load_text::<RunRefused, S>(alloc, name, ROWS_LIMIT, shelf)?;
    match read_edits(alloc, text.bytes(), power) {
        Ok(edits) => Ok(edits),
        Err(refusal) => Err(edits_stop(refusal)),
    }
}

// The design, the rows and the edits of the files.
fn read_inputs<S: Shelf>(
    alloc: Global,
    netlist: &Text,
    models: &Text,
    power: &Text,
    edits: &Text,
    top: Option<&Text>,
    shelf: &mut S,
) -> Result<Inputs, RunStop<RunRefused>>
    requires { S.standing shelf.old ≡ None }
    ensures shelf { Leaves (S.standing shelf.new) (S.files shelf.old) (S.files shelf.new) (S.faults shelf.old) (S.faults shelf.new) }
    ensures said { let x = session_files netlist.now models.now power.now edits.now (named_top top.entry) in
        IfSome (S.files shelf.old) (λ fs. Says inputs_view result (inputs_in fs x)) }
    ensures ready { IfOk result IsReady }
    ensures own { IfAt result (λ refusal. IsOfSession (run_refused_ending refusal).status) }
    ensures cause { let x = session_files netlist.now models.now power.now edits.now (named_top top.entry) in
        ReadOnlyWhere result (DueFailed (session_due (S.files shelf.old) x) (S.faults shelf.old) (S.faults shelf.new)) }
{
    let design = read_design(alloc, netlist, models, top, shelf)?;
    let power = read_supplies(alloc, power, shelf)?;
    let edits = read_edits_file(alloc, edits, &power, shelf)?;
    Ok(Inputs {
        design,
        power,
        edits,
    })
}

/// A session of a netlist, whose top is the cell of this name, under its models, that begins with the supplies of its power file: it does the edits in order,
/// with a recheck where they ask for one and a last one at their end, and writes what the rechecks found and the report, with net lines where asked for; or
/// the line of the first refusal. All checks are done before the first byte is written. It always returns, and leaves no file open.
pub(crate) fn session<S: Shelf, K: Sink>(
    alloc: Global,
    netlist: &Text,
    models: &Text,
    power: &Text,
    edits: &Text,
    top: Option<&Text>,
    nets: bool,
    shelf: &mut S,
    sink: &mut K,
) -> Status
    requires { S.standing shelf.old ≡ None }
    ensures shelf { Leaves (S.standing shelf.new) (S.files shelf.old) (S.files shelf.new) (S.faults shelf.old) (S.faults shelf.new) }
    ensures sink { K.faults sink.old ≤ K.faults sink.new }
    ensures answer { let x = session_files netlist.now models.now power.now edits.now (named_top top.entry) in
        Answers (session_run (S.files shelf.old) x nets) (S.faults shelf.old) (S.faults shelf.new)
        (taken (K.written sink.old) (K.written sink.new) (K.faults sink.old) (K.faults sink.new)) result }
{
    match read_inputs(alloc, netlist, models, power, edits, top, shelf) {
        Ok(inputs) => {
            let Inputs {
                design,
                power,
                edits,
            } = inputs;
            tell_run(&run_edits(alloc, &design, power, &edits, nets), sink)
        }
        Err(stop) => {
            let run: Result<RunRefused, RunStop<RunRefused>> = Err(stop);
            tell_run(&run, sink)
        }
    }
}
