//! The run of expected bounds.
ghost use Rattle.std.specs.Prelude.{◌≡◌, ◌≤◌, None, IfOk, length, map};
ghost use Rattle.cvc_cdl.specs.Builder.{named_top};
ghost use Rattle.cvc_io.specs.Causes.{Rose};
ghost use Rattle.cvc_law.specs.Bound.{IsBound};
ghost use Rattle.cvc_expect.specs.Rows.{expected_of};
ghost use Rattle.cvc_run.specs.Due.{DueFailed};
ghost use Rattle.cvc_run.specs.Lines.{run_refused_ending};
ghost use Rattle.cvc_run.specs.Loads.{OfContent};
ghost use Rattle.cvc_run.specs.Outside.{taken};
ghost use Rattle.cvc_run.specs.Run.{Answers};
ghost use Rattle.cvc_run.specs.Said.{whole};
ghost use Rattle.cvc_run.specs.Shelves.{Leaves};
ghost use Rattle.cvc_run.specs.Stops.{IfAt, ReadOnlyWhere, Says};
ghost use Rattle.cvc_run.specs.Telling.{Stands};
ghost use Rattle.cvc_run.specs.declared.lines.Subject.TheVariants as subjects;
ghost use Rattle.cvc_run.specs.declared.status.Status.TheVariants as statuses;
ghost use Rattle.cvc_top.specs.Expectations.{IsCompared, IsComparison, compared_ending, expect_files, expect_run};
ghost use Rattle.cvc_top.specs.Further.{about};

use crate::refused::stop_about;
use cvc_base::Text;
use cvc_expect::{Expected, MissedList, list_missed, read_expected, write_missed};
use cvc_io::{Shelf, Sink, WriteFailed};
use cvc_run::{RunRefused, RunStop, Status, Subject, Told, Whole, bind_files, load_text, tell_run};
use cvc_serial::settle_serial;
use std::alloc::Global;

// The most bytes of a file of expected bounds.
const EXPECTED_LIMIT: u64 = 16_777_216;

/// The bounds that are expected, and those that are missed.
#[derive(Drop)]
pub(crate) struct Compared {
    expected: Expected,
    missed: MissedList,
}

impl Told for Compared {
    ghost use Rattle.cvc_top.specs.Expectations.{IsCompared, compared_ending};

    ghost told = { compared_ending };

    ghost can_tell = { IsCompared };

    fn status(&self) -> Status {
        match self.missed.as_slice() {
            [] => Status::Clean,
            [_, ..] => Status::Errors,
        }
    }

    fn write<K: Sink>(&self, sink: &mut K) -> Result<(), WriteFailed> {
        write_missed(&self.expected, &self.missed, sink)
    }
}

// The rows of the file of this name.
fn read_expected_file<S: Shelf>(
    alloc: Global,
    name: &Text,
    shelf: &mut S,
) -> Result<Expected, RunStop<RunRefused>>
    requires { S.standing shelf.old ≡ None }
    ensures shelf { Leaves (S.standing shelf.new) (S.files shelf.old) (S.files shelf.new) (S.faults shelf.old) (S.faults shelf.new) }
    ensures rows { OfContent (S.files shelf.old) name.now (λ content. Says (λ rows. rows) result (about subjects.Expected (expected_of content))) }
    ensures own { IfAt result (λ refusal. (run_refused_ending refusal).status ≡ statuses.Expected) }
    ensures cause { ReadOnlyWhere result (Rose (S.faults shelf.old name.now) (S.faults shelf.new name.now)) }
{
    let text = load_text::<RunRefused, S>(alloc, name, EXPECTED_LIMIT, shelf)?;
    match read_expected(alloc, text.bytes()) {
        Ok(rows) => Ok(rows),
        Err(refused) => Err(stop_about(Subject::Expected, refused)),
    }
}

// The least family of a bound circuit, compared with what is expected.
fn compare(
    alloc: Global,
    bound: &Whole,
    expected: Expected,
) -> Result<Compared, RunStop<RunRefused>>
    requires { IsBound (length bound.now.flat.list.nets) (map (λ d. d.pins) bound.now.flat.list.devices) bound.now.circuit }
    ensures told { Stands compared_ending run_refused_ending result (IsComparison (whole bound.now.flat.list bound.now.circuit) expected) }
    ensures compared { IfOk result IsCompared }
    ensures unread { ReadOnlyWhere result ⊥ }
{
    let family = settle_serial(alloc, &bound.circuit)?;
    match list_missed(alloc, &bound.flat, &family, &expected) {
        Ok(missed) => Ok(Compared { expected, missed }),
        Err(refused) => Err(stop_about(Subject::Expected, refused)),
    }
}

// The least family of the files, compared with what is expected.
fn compare_files<S: Shelf>(
    alloc: Global,
    netlist: &Text,
    models: &Text,
    power: &Text,
    expected: &Text,
    top: Option<&Text>,
    shelf: &mut S,
) -> Result<Compared, RunStop<RunRefused>>
    requires { S.standing shelf.old ≡ None }
    ensures shelf { Leaves (S.standing shelf.new) (S.files shelf.old) (S.files shelf.new) (S.faults shelf.old) (S.faults shelf.new) }
    ensures told { let x = expect_files netlist.now models.now power.now expected.now (named_top top.entry) in
        Stands compared_ending run_refused_ending result (expect_run (S.files shelf.old) x).outcome }
    ensures compared { IfOk result IsCompared }
    ensures cause { let x = expect_files netlist.now models.now power.now expected.now (named_top top.entry) in
        ReadOnlyWhere result (DueFailed (expect_run (S.files shelf.old) x).due (S.faults shelf.old) (S.faults shelf.new)) }
{
    let bound = bind_files(alloc, netlist, models, power, top, shelf)?;
    let rows = read_expected_file(alloc, expected, shelf)?;
    compare(alloc, &bound, rows)
}

/// Compares the least voltage family of a netlist, whose top is the cell of this name, under its models and its power file, with a file of expected bounds,
/// and writes what is missed, or the line of the first refusal. It always returns, and leaves no file open.
pub(crate) fn expect<S: Shelf, K: Sink>(
    alloc: Global,
    netlist: &Text,
    models: &Text,
    power: &Text,
    expected: &Text,
    top: Option<&Text>,
    shelf: &mut S,
    sink: &mut K,
) -> Status
    requires { S.standing shelf.old ≡ None }
    ensures shelf { Leaves (S.standing shelf.new) (S.files shelf.old) (S.files shelf.new) (S.faults shelf.old) (S.faults shelf.new) }
    ensures sink { K.faults sink.old ≤ K.faults sink.new }
    ensures answer { let x = expect_files netlist.now models.now power.now expected.now (named_top top.entry) in
        Answers (expect_run (S.files shelf.old) x) (S.faults shelf.old) (S.faults shelf.new)
        (taken (K.written sink.old) (K.written sink.new) (K.faults sink.old) (K.faults sink.new)) result }
{
    let run = compare_files(alloc, netlist, models, power, expected, top, shelf);
    tell_run(&run, sink)
}
