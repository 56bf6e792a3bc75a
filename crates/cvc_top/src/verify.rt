//! The run of `verify`: the verdict on a log and a report.
ghost use Rattle.std.specs.Prelude.{◌≡◌, ◌<◌, ◌≤◌, ◌^◌, None, IfOk, IfSome, codes, count_by, decimal, flat_map, length, map};
ghost use Rattle.cvc_cdl.specs.Builder.{named_top};
ghost use Rattle.cvc_chain.specs.Reading.{is_line_feed, limit, log_of};
ghost use Rattle.cvc_io.specs.Bytes.{WritesText};
ghost use Rattle.cvc_io.specs.Causes.{HasCause, Rose};
ghost use Rattle.cvc_law.specs.Bound.{IsBound};
ghost use Rattle.cvc_run.specs.Due.{DueFailed};
ghost use Rattle.cvc_run.specs.Lines.{run_refused_ending};
ghost use Rattle.cvc_run.specs.Loads.{OfContent};
ghost use Rattle.cvc_run.specs.Outside.{taken};
ghost use Rattle.cvc_run.specs.Run.{Answers};
ghost use Rattle.cvc_run.specs.Said.{whole};
ghost use Rattle.cvc_run.specs.Shelves.{Leaves};
ghost use Rattle.cvc_run.specs.Stops.{IfAt, ReadOnlyWhere, Says};
ghost use Rattle.cvc_run.specs.Telling.{Stands};
ghost use Rattle.cvc_run.specs.declared.lines.Subject.TheVariants as subjects;
ghost use Rattle.cvc_run.specs.declared.status.Status.TheVariants as statuses;
ghost use Rattle.cvc_top.specs.Certificates.{CanTell, IsOwnReport, IsVerdictOn, judgement_ending, line_past, rejection, report_in, verify_files, verify_run};
ghost use Rattle.cvc_top.specs.Further.{about};

use crate::refused::stop_about;
use cvc_base::{Cause, Text};
use cvc_chain::{Log, Verdict, read_log};
use cvc_flat::{Flat, Pieces};
use cvc_io::{Shelf, Sink, WriteFailed};
use cvc_rows::{LineFault, Refused};
use cvc_run::{RunRefused, RunStop, Status, Subject, Told, Whole, bind_files, load_text, tell_run};
use cvc_text::{Word, write_line};
use std::alloc::Global;

// The most bytes of a log and of a report.
const LIMIT: u64 = 134_217_728;

/// The verdict on a log and a report, and the flat list with the names of its devices.
#[derive(Drop)]
pub(crate) struct Judgement {
    flat: Flat,
    verdict: Verdict,
}

impl Told for Judgement {
    ghost use Rattle.cvc_top.specs.Certificates.{CanTell, judgement_ending};

    ghost told = { judgement_ending };

    ghost can_tell = { CanTell };

    fn status(&self) -> Status {
        match self.verdict {
            Verdict::Yes => Status::Clean,
            Verdict::Line(_) | Verdict::Device(_) | Verdict::Byte(_) => Status::Errors,
        }
    }

    fn write<K: Sink>(&self, sink: &mut K) -> Result<(), WriteFailed> {
        match self.verdict {
            Verdict::Yes => write_line(&[Word::Text(b"verified")], sink),
            Verdict::Line(line) => write_rejected_at(b"line", u64::from(line), sink),
            Verdict::Device(device) => {
                let mut pieces = Pieces::new();
                self.flat.device_pieces(device, &mut pieces);
                write_rejected_device(pieces.as_slice(), sink)
            }
            Verdict::Byte(byte) => write_rejected_at(b"byte", byte, sink),
        }
    }
}

// What is rejected at a number.
fn write_rejected_at<K: Sink>(subject: &[u8], number: u64, sink: &mut K) -> Result<(), WriteFailed>
    ensures written { WritesText (K.written sink.old) (K.written sink.new) result (rejection subject.now (decimal number)) }
    ensures cause { HasCause (K.faults sink.old) (K.faults sink.new) result }
{
    write_line(
        &[
            Word::Text(b"rejected"),
            Word::Text(subject),
            Word::Number(number),
        ],
        sink,
    )
}

// The device that is rejected, whose name is given in pieces.
fn write_rejected_device<'a, K: Sink>(name: &'a [&'a [u8]], sink: &mut K) -> Result<(), WriteFailed>
    ensures written { WritesText (K.written sink.old) (K.written sink.new) result (rejection (codes "device") (flat_map (λ w. w.now) name.now)) }
    ensures cause { HasCause (K.faults sink.old) (K.faults sink.new) result }
{
    write_line(
        &[
            Word::Text(b"rejected"),
            Word::Text(b"device"),
            Word::Name(name),
        ],
        sink,
    )
}

// The log of the file of this name.
fn read_log_file<S: Shelf>(
    alloc: Global,
    name: &Text,
    shelf: &mut S,
) -> Result<Log, RunStop<RunRefused>>
    requires { S.standing shelf.old ≡ None }
    ensures shelf { Leaves (S.standing shelf.new) (S.files shelf.old) (S.files shelf.new) (S.faults shelf.old) (S.faults shelf.new) }
    ensures log { OfContent (S.files shelf.old) name.now (λ content. Says (λ log. log) result (about subjects.Log (log_of content))) }
    ensures few { IfOk result (λ log. length log < 2 ^ 32) }
    ensures own { IfAt result (λ refusal. (run_refused_ending refusal).status ≡ statuses.Certificate) }
    ensures cause { ReadOnlyWhere result (Rose (S.faults shelf.old name.now) (S.faults shelf.new name.now)) }
{
    let text = load_text::<RunRefused, S>(alloc, name, LIMIT, shelf)?;
    match read_log(alloc, text.bytes()) {
        Ok(log) => Ok(log),
        Err(refused) => Err(stop_about(Subject::Log, refused)),
    }
}

// How many lines end in these bytes.
fn count_line_feeds(bytes: &[u8]) -> usize
    ensures { result ≡ count_by is_line_feed bytes.now }
{
    bytes.iter().filter(|byte| **byte == b'\n').count()
}

// The line of the first byte past the limit.
fn line_past_limit(bytes: &[u8]) -> u32
    requires { limit < length bytes.now }
    ensures { result ≡ line_past bytes.now }
{
    let ended = count_line_feeds(&bytes[..LIMIT as usize]);
    ended as u32 + 1
}

// The report in the file of this name.
fn read_report_file<S: Shelf>(
    alloc: Global,
    name: &Text,
    shelf: &mut S,
) -> Result<Text, RunStop<RunRefused>>
    requires { S.standing shelf.old ≡ None }
    ensures shelf { Leaves (S.standing shelf.new) (S.files shelf.old) (S.files shelf.new) (S.faults shelf.old) (S.faults shelf.new) }
    ensures report { OfContent (S.files shelf.old) name.now (λ content. Says (λ text. text) result (about subjects.Report (report_in content))) }
    ensures own { IfAt result (λ refusal. (run_refused_ending refusal).status ≡ statuses.Certificate) }
    ensures cause { ReadOnlyWhere result (Rose (S.faults shelf.old name.now) (S.faults shelf.new name.now)) }
{
    let text = load_text::<RunRefused, S>(alloc, name, LIMIT, shelf)?;
    if text.bytes().len() as u64 <= LIMIT {
        return Ok(text);
    }
    let fault = LineFault {
        line: line_past_limit(text.bytes()),
        cause: Cause::FileTooLong,
    };
    Err(stop_about(Subject::Report, Refused::At(fault)))
}

// The verdict on a log and a report of a bound circuit.
fn judge(
    alloc: Global,
    bound: Whole,
    log: &Log,
    nets: bool,
    report: &Text,
) -> Result<Judgement, RunStop<RunRefused>>
    requires bound { IsBound (length bound.flat.list.nets) (map (λ d. d.pins) bound.flat.list.devices) bound.circuit }
    requires few { length log.now < 2 ^ 32 }
    ensures told { Stands judgement_ending run_refused_ending result (IsVerdictOn nets (whole bound.flat.list bound.circuit) log.now report.now) }
    ensures named { IfOk result CanTell }
    ensures unread { ReadOnlyWhere result ⊥ }
{
    let Whole { flat, circuit } = bound;
    let verdict = cvc_chain::verify(alloc, &circuit, &flat, log, nets, report.bytes())?;
    Ok(Judgement { flat, verdict })
}

// The verdict on a log and a report of the files.
fn judge_files<S: Shelf>(
    alloc: Global,
    netlist: &Text,
    models: &Text,
    power: &Text,
    log: &Text,
    report: &Text,
    top: Option<&Text>,
    nets: bool,
    shelf: &mut S,
) -> Result<Judgement, RunStop<RunRefused>>
    requires { S.standing shelf.old ≡ None }
    ensures shelf { Leaves (S.standing shelf.new) (S.files shelf.old) (S.files shelf.new) (S.faults shelf.old) (S.faults shelf.new) }
    ensures told { let x = verify_files netlist.now models.now power.now log.now report.now (named_top top.entry) nets in
        Stands judgement_ending run_refused_ending result (verify_run (S.files shelf.old) x).outcome }
    ensures named { IfOk result CanTell }
    ensures cause { let x = verify_files netlist.now models.now power.now log.now report.now (named_top top.entry) nets in
        ReadOnlyWhere result (DueFailed (verify_run (S.files shelf.old) x).due (S.faults shelf.old) (S.faults shelf.new)) }
{
    let bound = bind_files(alloc, netlist, models, power, top, shelf)?;
    let lines = read_log_file(alloc, log, shelf)?;
    let claimed = read_report_file(alloc, report, shelf)?;
    judge(alloc, bound, &lines, nets, &claimed)
}

/// Verifies that a report, with net lines or without, is that of the least voltage family of a netlist, whose top is the cell of this name, under its models
/// and its power file, by a derivation log: it writes `verified`, or what is wrong with the log or the report, or the line of the first refusal. It trusts
/// neither the log nor the report, always returns, and leaves no file open.
pub(crate) fn verify<S: Shelf, K: Sink>(
    alloc: Global,
    netlist: &Text,
    models: &Text,
    power: &Text,
    log: &Text,
    report: &Text,
    top: Option<&Text>,
    nets: bool,
    shelf: &mut S,
    sink: &mut K,
) -> Status
    requires { S.standing shelf.old ≡ None }
    ensures shelf { Leaves (S.standing shelf.new) (S.files shelf.old) (S.files shelf.new) (S.faults shelf.old) (S.faults shelf.new) }
    ensures sink { K.faults sink.old ≤ K.faults sink.new }
    ensures answer { let x = verify_files netlist.now models.now power.now log.now report.now (named_top top.entry) nets in
        Answers (verify_run (S.files shelf.old) x) (S.faults shelf.old) (S.faults shelf.new)
        (taken (K.written sink.old) (K.written sink.new) (K.faults sink.old) (K.faults sink.new)) result }
    // `verified` means that the report is the text that a check of the same files writes.
    ensures right { let x = verify_files netlist.now models.now power.now log.now report.now (named_top top.entry) nets in
        result ≡ statuses.Clean → IfSome (S.files shelf.old) (λ fs. IsOwnReport fs x) }
{
    let run = judge_files(alloc, netlist, models, power, log, report, top, nets, shelf);
    tell_run(&run, sink)
}
