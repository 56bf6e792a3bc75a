//! The run of `prove`: a derivation log of the least voltage family.
ghost use Rattle.std.specs.Prelude.{◌≡◌, ◌≤◌, None};
ghost use Rattle.cvc_cdl.specs.Builder.{named_top};
ghost use Rattle.cvc_run.specs.Due.{DueFailed, files_due};
ghost use Rattle.cvc_run.specs.Outcome.{refused_ending};
ghost use Rattle.cvc_run.specs.Outside.{taken};
ghost use Rattle.cvc_run.specs.Run.{Answers};
ghost use Rattle.cvc_run.specs.Shelves.{Leaves};
ghost use Rattle.cvc_run.specs.Stops.{ReadOnlyWhere};
ghost use Rattle.cvc_run.specs.Telling.{Stands};
ghost use Rattle.cvc_top.specs.Certificates.{proof_ending, prove_run};

use cvc_base::Text;
use cvc_chain::{Log, write_log};
use cvc_io::{Shelf, Sink, WriteFailed};
use cvc_run::{Refused, RunStop, Status, Told, bind_files, tell_run};
use std::alloc::Global;

/// A log that derives the least family of a circuit.
#[derive(Drop)]
pub(crate) struct Proof {
    log: Log,
}

impl Told for Proof {
    ghost use Rattle.cvc_top.specs.Certificates.{proof_ending};

    ghost told = { proof_ending };

    ghost can_tell = { λ _. Unit {0} };

    fn status(&self) -> Status {
        Status::Clean
    }

    fn write<K: Sink>(&self, sink: &mut K) -> Result<(), WriteFailed> {
        write_log(&self.log, sink)
    }
}

// A log of the circuit that the files are bound to.
fn prove_files<S: Shelf>(
    alloc: Global,
    netlist: &Text,
    models: &Text,
    power: &Text,
    top: Option<&Text>,
    shelf: &mut S,
) -> Result<Proof, RunStop<Refused>>
    requires { S.standing shelf.old ≡ None }
    ensures shelf { Leaves (S.standing shelf.new) (S.files shelf.old) (S.files shelf.new) (S.faults shelf.old) (S.faults shelf.new) }
    ensures told { Stands proof_ending refused_ending result (prove_run (S.files shelf.old) (named_top top.entry) netlist.now models.now power.now).outcome }
    ensures cause { ReadOnlyWhere result
        (DueFailed (files_due (S.files shelf.old) (named_top top.entry) netlist.now models.now power.now) (S.faults shelf.old) (S.faults shelf.new)) }
{
    let bound = bind_files(alloc, netlist, models, power, top, shelf)?;
    let log = cvc_chain::prove(alloc, &bound.circuit)?;
    Ok(Proof { log })
}

/// Writes a log that derives the least voltage family of a netlist, whose top is the cell of this name, under its models and its power file, or the line of
/// the first refusal. Which log it is isn't said. It always returns, and leaves no file open.
pub(crate) fn prove<S: Shelf, K: Sink>(
    alloc: Global,
    netlist: &Text,
    models: &Text,
    power: &Text,
    top: Option<&Text>,
    shelf: &mut S,
    sink: &mut K,
) -> Status
    requires { S.standing shelf.old ≡ None }
    ensures shelf { Leaves (S.standing shelf.new) (S.files shelf.old) (S.files shelf.new) (S.faults shelf.old) (S.faults shelf.new) }
    ensures sink { K.faults sink.old ≤ K.faults sink.new }
    ensures answer { Answers (prove_run (S.files shelf.old) (named_top top.entry) netlist.now models.now power.now) (S.faults shelf.old) (S.faults shelf.new)
        (taken (K.written sink.old) (K.written sink.new) (K.faults sink.old) (K.faults sink.new)) result }
{
    let run = prove_files(alloc, netlist, models, power, top, shelf);
    tell_run(&run, sink)
}
