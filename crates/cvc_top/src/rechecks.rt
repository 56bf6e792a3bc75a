//! Edits of a session that are done in order, what their rechecks find, and the text of it.
ghost use Rattle.std.specs.Prelude.{◌≡◌, suc, ◌≤ℤ◌, [], All, IfOk, IfSome, IsSome, IsSomeAnd, OnOk, length, map};
ghost use Rattle.std.specs.List.{flat_map};
ghost use Rattle.cvc_delta.specs.Edits.{AreApart, IsOrderedEdit, after, after_all, numbered, set_row};
ghost use Rattle.cvc_io.specs.Bytes.{WritesText};
ghost use Rattle.cvc_io.specs.Causes.{HasCause};
ghost use Rattle.cvc_model.specs.Bindable.{AreBindable};
ghost use Rattle.cvc_power.specs.Power.{IsOrdered};
ghost use Rattle.cvc_report.specs.Refusals.{refusal};
ghost use Rattle.cvc_report.specs.Report.{report};
ghost use Rattle.cvc_run.specs.Outcome.{status_of};
ghost use Rattle.cvc_run.specs.Stops.{IsNeverAt, ReadOnlyWhere};
ghost use Rattle.cvc_text.specs.Lines.{line};
ghost use Rattle.cvc_text.specs.Printed.{word_text};
ghost use Rattle.cvc_text.specs.Putting.{Puts, stand};
ghost use Rattle.cvc_top.specs.Rechecks.{
  AreRechecks,
  CanTell,
  IsChecked,
  IsDone,
  IsFinished,
  IsFoundIn,
  IsReportable,
  last_ending,
  recheck_line,
  refused_line,
  session_text,
};

use crate::refused::file_word;
use cvc_base::{Fault, Findings, ItemList, Mv, NoMemory, Refusal};
use cvc_delta::{Edit, Edits, Session};
use cvc_flat::Flat;
use cvc_io::{Sink, WriteFailed};
use cvc_power::Power;
use cvc_report::{write_refusal, write_report};
use cvc_run::{Design, RunRefused, RunStop, Status, Told};
use cvc_text::{Word, write_line};
use std::alloc::Global;

/// What a check of the rows found: so many findings, or the first fault of binding.
#[derive(Drop)]
pub(crate) enum Found {
    Errors(usize),
    Refused(Fault),
}

/// A recheck that the edits ask for: its number, from 1, and what it found.
#[derive(Drop)]
pub(crate) struct Recheck {
    number: usize,
    found: Found,
}

/// A session whose edits are done: what each recheck found, and the fault of the last check, which has no place among them. Where there is none, the session
/// keeps that check's result.
#[derive(Drop)]
pub(crate) struct Finished<'c> {
    flat: &'c Flat,
    session: Session<'c>,
    rechecks: ItemList<Recheck>,
    refused: Option<Fault>,
    nets: bool,
}

// The status of a report with these findings.
fn status_of(findings: &Findings) -> Status
    ensures { result ≡ status_of findings.now }
{
    match findings.as_slice() {
        [] => Status::Clean,
        [_, ..] => Status::Errors,
    }
}

impl Told for Finished<'_> {
    ghost use Rattle.cvc_top.specs.Rechecks.{CanTell, finished_ending};

    ghost told = { finished_ending };

    ghost can_tell = { CanTell };

    fn status(&self) -> Status {
        if self.refused.is_some() {
            return Status::Binding;
        }
        match self.session.findings() {
            Some(findings) => status_of(findings),
            None => Status::Clean,
        }
    }

    fn write<K: Sink>(&self, sink: &mut K) -> Result<(), WriteFailed> {
        put_session(self, sink)
    }
}

// ## Edits

// Checks the rows. Where there is no fault of binding, the session keeps the result.
fn check(session: &mut Session) -> Result<Option<Fault>, NoMemory>
    ensures checked { IfOk result (IsChecked session.new) }
    ensures same { session.new ≡ record session.old { kept = session.new.kept } }
{
    match session.recheck() {
        Ok(()) => Ok(None),
        Err(Refusal::At(fault)) => Ok(Some(fault)),
        Err(Refusal::NoMemory) => Err(NoMemory),
    }
}

// How many findings the kept result has.
fn count_findings(session: &Session) -> usize
    requires { IsSome session.now.kept }
    ensures { IfSome session.now.kept (λ j. result ≡ length j.findings) }
{
    match session.findings() {
        Some(findings) => findings.len(),
        None => 0,
    }
}

// What a recheck finds.
fn check_again(session: &mut Session) -> Result<Found, NoMemory>
    ensures found { IfOk result (IsFoundIn session.old.flat session.old.models session.old.rows) }
    ensures same { session.new ≡ record session.old { kept = session.new.kept } }
{
    match check(session)? {
        None => Ok(Found::Errors(count_findings(session))),
        Some(fault) => Ok(Found::Refused(fault)),
    }
}

// Gives the row of this name these bounds, whose low isn't above the high.
fn set(session: &mut Session, name: &[u8], low: Mv, high: Mv) -> Result<(), NoMemory>
    requires { low ≤ℤ high }
    ensures rows { OnOk result (session.new.rows ≡ set_row session.old.rows name.now low high) }
    ensures same { session.new ≡ record session.old { rows = session.new.rows; kept = session.new.kept } }
{
    match session.set(name, low, high) {
        Ok(()) => Ok(()),
        Err(_) => Err(NoMemory),
    }
}

// Does an edit. A recheck stands behind those before it.
fn do_edit(
    session: &mut Session,
    edit: &Edit,
    rechecks: &mut ItemList<Recheck>,
) -> Result<(), NoMemory>
    requires { IsOrderedEdit edit.now }
    ensures rows { OnOk result (session.new.rows ≡ after session.old.rows edit.now) }
    ensures rechecks { OnOk result
        (IsDone session.old.flat session.old.models session.old.rows (suc (length rechecks.old)) edit.now rechecks.old rechecks.new) }
    ensures same { session.new ≡ record session.old { rows = session.new.rows; kept = session.new.kept } }
{
    match edit {
        Edit::Set { name, low, high } => set(session, name.bytes(), *low, *high),
        Edit::Unset { name } => {
            // An accepted file unsets only rows that are there.
            let _ = session.unset(name.bytes());
            Ok(())
        }
        Edit::Recheck => {
            let found = check_again(session)?;
            let number = rechecks.as_slice().len() + 1;
            rechecks.push(Recheck { number, found })
        }
    }
}

// Does the edits in order: what their rechecks find.
fn do_edits(
    alloc: Global,
    session: &mut Session,
    edits: &[Edit],
) -> Result<ItemList<Recheck>, NoMemory>
    requires { All IsOrderedEdit edits.now }
    ensures rows { OnOk result (session.new.rows ≡ after_all session.old.rows edits.now) }
    ensures rechecks { IfOk result (AreRechecks session.old.flat session.old.models session.old.rows edits.now 1) }
    ensures same { session.new ≡ record session.old { rows = session.new.rows; kept = session.new.kept } }
{
    let mut rechecks = ItemList::new(alloc);
    for edit in edits {
        do_edit(session, edit, &mut rechecks)?;
    }
    Ok(rechecks)
}

// Does the edits of a session of this design, and checks the rows that they leave.
fn finish<'c>(
    alloc: Global,
    mut session: Session<'c>,
    flat: &'c Flat,
    edits: &Edits,
    nets: bool,
) -> Result<Finished<'c>, NoMemory>
    requires flat { session.flat ≡ flat.now.list }
    requires ordered { All IsOrderedEdit edits.now }
    ensures finished { IfOk result (IsFinished flat.now.list session.entry.models session.entry.rows edits.now nets) }
{
    let rechecks = do_edits(alloc, &mut session, edits.as_slice())?;
    let refused = check(&mut session)?;
    Ok(Finished {
        flat,
        session,
        rechecks,
        refused,
        nets,
    })
}

/// A session of this design that begins with these rows: its edits are done in order, and the rows are checked that they leave. All checks are done before
/// anything is told. It always returns.
pub(crate) fn run_edits<'c>(
    alloc: Global,
    design: &'c Design,
    power: Power,
    edits: &Edits,
    nets: bool,
) -> Result<Finished<'c>, RunStop<RunRefused>>
    requires bindable { AreBindable design.now.models }
    requires ordered { All IsOrdered power }
    requires apart { AreApart power }
    requires edits { All IsOrderedEdit edits.now }
    ensures finished { IfOk result (IsFinished design.now.flat.list design.now.models (numbered power) edits.now nets) }
    ensures never_at { IsNeverAt result }
    ensures unread { ReadOnlyWhere result ⊥ }
{
    let session = Session::begin(alloc, &design.flat, &design.models, power)?;
    Ok(finish(alloc, session, &design.flat, edits, nets)?)
}

// ## Text

// Writes a line. Nothing waits before or after it, here and below.
#[tactic(auto, using(cvc_text::proofs::Putting::written_put))]
fn put_line<K: Sink>(words: &[Word], sink: &mut K) -> Result<(), WriteFailed>
    ensures { Puts result (stand (K.written sink.old) [] (K.faults sink.old)) (stand (K.written sink.new) [] (K.faults sink.new))
        (line (map word_text words.now)) }
{
    write_line(words, sink)
}

// The words of a recheck that was refused.
fn put_refused<K: Sink>(number: u64, fault: &Fault, sink: &mut K) -> Result<(), WriteFailed>
    ensures { Puts result (stand (K.written sink.old) [] (K.faults sink.old)) (stand (K.written sink.new) [] (K.faults sink.new))
        (refused_line number fault.now) }
{
    let words = [
        Word::Text(b"recheck"),
        Word::Number(number),
        Word::Text(b"refused"),
        Word::Text(file_word(fault.place.file)),
        Word::Text(b"line"),
        Word::Number(u64::from(fault.place.line)),
        Word::Text(fault.cause.word()),
    ];
    put_line(&words, sink)
}

// The line of a recheck.
fn put_recheck<K: Sink>(recheck: &Recheck, sink: &mut K) -> Result<(), WriteFailed>
    ensures { Puts result (stand (K.written sink.old) [] (K.faults sink.old)) (stand (K.written sink.new) [] (K.faults sink.new))
        (recheck_line recheck.now) }
{
    let number = recheck.number as u64;
    match &recheck.found {
        Found::Errors(count) => {
            let words = [
                Word::Text(b"recheck"),
                Word::Number(number),
                Word::Text(b"errors"),
                Word::Number(*count as u64),
            ];
            put_line(&words, sink)
        }
        Found::Refused(fault) => put_refused(number, fault, sink),
    }
}

// The lines of these rechecks.
fn put_each<K: Sink>(rechecks: &[Recheck], sink: &mut K) -> Result<(), WriteFailed>
    ensures { Puts result (stand (K.written sink.old) [] (K.faults sink.old)) (stand (K.written sink.new) [] (K.faults sink.new))
        (flat_map recheck_line rechecks.now) }
{
    for recheck in rechecks {
        put_recheck(recheck, sink)?;
    }
    Ok(())
}

// The line of a refusal.
#[tactic(auto, using(cvc_text::proofs::Putting::written_put))]
fn put_refusal<K: Sink>(fault: &Fault, sink: &mut K) -> Result<(), WriteFailed>
    ensures { Puts result (stand (K.written sink.old) [] (K.faults sink.old)) (stand (K.written sink.new) [] (K.faults sink.new))
        (refusal fault.now) }
{
    write_refusal(fault, sink)
}

// The report of the result that the session keeps.
#[tactic(auto, using(cvc_text::proofs::Putting::written_put))]
fn put_kept<K: Sink>(
    flat: &Flat,
    session: &Session,
    nets: bool,
    sink: &mut K,
) -> Result<(), WriteFailed>
    requires { IsSomeAnd session.now.kept (IsReportable flat.now.list) }
    ensures { IfSome session.now.kept (λ j. Puts result (stand (K.written sink.old) [] (K.faults sink.old)) (stand (K.written sink.new) [] (K.faults sink.new))
        (report j.circuit flat.now.list j.family nets)) }
{
    match (session.circuit(), session.family(), session.findings()) {
        (Some(circuit), Some(family), Some(findings)) => {
            write_report(circuit, flat, family, findings, nets, sink)
        }
        _ => Ok(()),
    }
}

// What the last check writes.
fn put_last<K: Sink>(finished: &Finished, sink: &mut K) -> Result<(), WriteFailed>
    requires { CanTell finished.now }
    ensures { Puts result (stand (K.written sink.old) [] (K.faults sink.old)) (stand (K.written sink.new) [] (K.faults sink.new))
        (last_ending finished.now).text }
{
    match &finished.refused {
        Some(fault) => put_refusal(fault, sink),
        None => put_kept(finished.flat, &finished.session, finished.nets, sink),
    }
}

// The whole text.
fn put_all<K: Sink>(finished: &Finished, sink: &mut K) -> Result<(), WriteFailed>
    requires { CanTell finished.now }
    ensures { Puts result (stand (K.written sink.old) [] (K.faults sink.old)) (stand (K.written sink.new) [] (K.faults sink.new))
        (session_text finished.now.rechecks (last_ending finished.now).text) }
{
    put_line(&[Word::Text(b"CVC"), Word::Text(b"session")], sink)?;
    put_each(finished.rechecks.as_slice(), sink)?;
    put_last(finished, sink)
}

// Writes the whole text.
#[tactic(auto, using(crate::proofs::Written::written_of))]
fn put_session<K: Sink>(finished: &Finished, sink: &mut K) -> Result<(), WriteFailed>
    requires { CanTell finished.now }
    ensures written { WritesText (K.written sink.old) (K.written sink.new) result (session_text finished.now.rechecks (last_ending finished.now).text) }
    ensures cause { HasCause (K.faults sink.old) (K.faults sink.new) result }
{
    put_all(finished, sink)
}
