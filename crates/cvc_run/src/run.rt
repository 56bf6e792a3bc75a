//! The runs of a check.
ghost use Rattle.std.specs.Prelude.{◌≡◌, ◌≤◌, None, IfOk, IfSome, length, map};
ghost use Rattle.cvc_cdl.specs.Builder.{named_top};
ghost use Rattle.cvc_law.specs.Bound.{IsBound};
ghost use Rattle.cvc_run.specs.Due.{DueFailed, job_due};
ghost use Rattle.cvc_run.specs.Outcome.{job_run, survey_run, survey_said};
ghost use Rattle.cvc_run.specs.Outside.{taken};
ghost use Rattle.cvc_run.specs.Run.{Answers, no_shelf};
ghost use Rattle.cvc_run.specs.Said.{bound_of_job, whole};
ghost use Rattle.cvc_run.specs.Shelves.{Leaves};
ghost use Rattle.cvc_run.specs.Stops.{ReadOnlyWhere, Says};
ghost use Rattle.cvc_run.specs.Telling.{IsChecked, checked_whole};
ghost use Rattle.cvc_run.specs.declared.checked.Telling.TheVariants as tellings;

use crate::checked::{Checked, Telling};
use crate::stage::Refused;
use crate::telling::tell_run;
use crate::whole::{Whole, bind_files, bind_texts};
use crate::{RunStop, Status};
use cvc_base::Text;
use cvc_crew::Gate;
use cvc_gen::netlist_of;
use cvc_io::{Shelf, Sink};
use cvc_judge::{judge, judge_serial};
use cvc_words::Job;
use std::alloc::Global;
use std::sync::Wait;
use std::thread::Threads;

// The name of the top, if the job gives one.
fn top_of(job: &Job) -> Option<&Text>
    ensures { named_top result ≡ job.now.top }
{
    match &job.top {
        Some(name) => Some(name),
        None => None,
    }
}

// The circuit of a job's files, or why there is none.
fn bind_job<S: Shelf>(alloc: Global, job: &Job, shelf: &mut S) -> Result<Whole, RunStop<Refused>>
    requires { S.standing shelf.old ≡ None }
    ensures shelf { Leaves (S.standing shelf.new) (S.files shelf.old) (S.files shelf.new) (S.faults shelf.old) (S.faults shelf.new) }
    ensures said { IfSome (S.files shelf.old) (λ fs. Says (λ w. whole w.flat.list w.circuit) result (bound_of_job fs job.now)) }
    ensures cause { ReadOnlyWhere result (DueFailed (job_due (S.files shelf.old) job.now) (S.faults shelf.old) (S.faults shelf.new)) }
    ensures bound { IfOk result (λ w. IsBound (length w.flat.list.nets) (map (λ d. d.pins) w.flat.list.devices) w.circuit) }
{
    bind_files(
        alloc,
        &job.netlist,
        &job.models,
        &job.power,
        top_of(job),
        shelf,
    )
}

// The judged circuit of a job's files, on one thread.
fn judge_files_serial<S: Shelf>(
    alloc: Global,
    job: &Job,
    shelf: &mut S,
) -> Result<Checked, RunStop<Refused>>
    requires { S.standing shelf.old ≡ None }
    ensures shelf { Leaves (S.standing shelf.new) (S.files shelf.old) (S.files shelf.new) (S.faults shelf.old) (S.faults shelf.new) }
    ensures said { IfSome (S.files shelf.old) (λ fs. Says checked_whole result (bound_of_job fs job.now)) }
    ensures cause { ReadOnlyWhere result (DueFailed (job_due (S.files shelf.old) job.now) (S.faults shelf.old) (S.faults shelf.new)) }
    ensures checked { IfOk result IsChecked }
    ensures telling { IfOk result (λ c. c.telling ≡ tellings.Report job.now.nets) }
{
    let Whole { flat, circuit } = bind_job(alloc, job, shelf)?;
    let judged = judge_serial(alloc, circuit)?;
    Ok(Checked {
        flat,
        judged,
        telling: Telling::Report { nets: job.nets },
    })
}

// The judged circuit of a job's files, by its workers.
fn judge_files<R: Threads + Wait + Sync, S: Shelf, G: Gate>(
    rt: &R,
    alloc: Global,
    job: &Job,
    shelf: &mut S,
    gate: &G,
) -> Result<Checked, RunStop<Refused>>
    requires closed { S.standing shelf.old ≡ None }
    requires some { 1 ≤ job.now.workers }
    requires few { job.now.workers ≤ 64 }
    ensures shelf { Leaves (S.standing shelf.new) (S.files shelf.old) (S.files shelf.new) (S.faults shelf.old) (S.faults shelf.new) }
    ensures said { IfSome (S.files shelf.old) (λ fs. Says checked_whole result (bound_of_job fs job.now)) }
    ensures cause { ReadOnlyWhere result (DueFailed (job_due (S.files shelf.old) job.now) (S.faults shelf.old) (S.faults shelf.new)) }
    ensures checked { IfOk result IsChecked }
    ensures telling { IfOk result (λ c. c.telling ≡ tellings.Report job.now.nets) }
{
    let Whole { flat, circuit } = bind_job(alloc, job, shelf)?;
    let judged = judge(rt, alloc, circuit, job.workers, gate)?;
    Ok(Checked {
        flat,
        judged,
        telling: Telling::Report { nets: job.nets },
    })
}

// The judged circuit of the generated texts of this seed and size, by these workers.
fn judge_generated<R: Threads + Wait + Sync, G: Gate>(
    rt: &R,
    alloc: Global,
    seed: u64,
    size: u32,
    workers: u32,
    gate: &G,
) -> Result<Checked, RunStop<Refused>>
    requires some { 1 ≤ size }
    requires limit { size ≤ 200000 }
    requires some_workers { 1 ≤ workers }
    requires few_workers { workers ≤ 64 }
    ensures said { Says checked_whole result (survey_said seed size) }
    ensures unread { ReadOnlyWhere result ⊥ }
    ensures checked { IfOk result IsChecked }
    ensures telling { IfOk result (λ c. c.telling ≡ tellings.Summary seed size) }
{
    let texts = netlist_of(alloc, seed, size)?;
    let Whole { flat, circuit } = bind_texts(alloc, &texts)?;
    let judged = judge(rt, alloc, circuit, workers, gate)?;
    Ok(Checked {
        flat,
        judged,
        telling: Telling::Summary { seed, size },
    })
}

/// Checks a netlist on one thread: reads the job's three files, and writes the report of the least voltage family, or the line of the first refusal.
/// The job's number of workers means nothing here. It always returns, and leaves no file open.
pub fn check_serial<S: Shelf, K: Sink>(
    alloc: Global,
    job: &Job,
    shelf: &mut S,
    sink: &mut K,
) -> Status
    requires { S.standing shelf.old ≡ None }
    ensures shelf { Leaves (S.standing shelf.new) (S.files shelf.old) (S.files shelf.new) (S.faults shelf.old) (S.faults shelf.new) }
    ensures sink { K.faults sink.old ≤ K.faults sink.new }
    // The status and the bytes are the outcome's, or a fault of the outside came in this call, or memory ran out. Accepted input is answered.
    ensures answer { Answers (job_run (S.files shelf.old) job.now) (S.faults shelf.old) (S.faults shelf.new)
        (taken (K.written sink.old) (K.written sink.new) (K.faults sink.old) (K.faults sink.new)) result }
{
    let run = judge_files_serial(alloc, job, shelf);
    tell_run(&run, sink)
}

/// Checks a netlist with the job's workers, 1 to 64: the same answer as that of `check_serial`, for every schedule. It leaves no file open.
/// The gate is called before each turn of a worker. It waits for its workers, so it isn't promised to return.
pub fn check<R: Threads + Wait + Sync, S: Shelf, K: Sink, G: Gate>(
    rt: &R,
    alloc: Global,
    job: &Job,
    shelf: &mut S,
    sink: &mut K,
    gate: &G,
) -> Status
    requires closed { S.standing shelf.old ≡ None }
    requires some { 1 ≤ job.now.workers }
    requires few { job.now.workers ≤ 64 }
    ensures shelf { Leaves (S.standing shelf.new) (S.files shelf.old) (S.files shelf.new) (S.faults shelf.old) (S.faults shelf.new) }
    ensures sink { K.faults sink.old ≤ K.faults sink.new }
    // The status and the bytes are the outcome's, or a fault of the outside came in this call, or memory ran out. Accepted input is answered.
    ensures answer { Answers (job_run (S.files shelf.old) job.now) (S.faults shelf.old) (S.faults shelf.new)
        (taken (K.written sink.old) (K.written sink.new) (K.faults sink.old) (K.faults sink.new)) result }
{
    let run = judge_files(rt, alloc, job, shelf, gate);
    tell_run(&run, sink)
}

/// Checks the netlist that is generated from the seed, with `size` stages, by 1 to 64 workers, and writes a summary: how many findings each rule has.
/// The gate is called before each turn of a worker. It waits for its workers, so it isn't promised to return.
pub fn survey<R: Threads + Wait + Sync, K: Sink, G: Gate>(
    rt: &R,
    alloc: Global,
    seed: u64,
    size: u32,
    workers: u32,
    sink: &mut K,
    gate: &G,
) -> Status
    requires some { 1 ≤ size }
    requires limit { size ≤ 200000 }
    requires some_workers { 1 ≤ workers }
    requires few_workers { workers ≤ 64 }
    ensures sink { K.faults sink.old ≤ K.faults sink.new }
    // The status and the bytes are the outcome's, or the sink failed in this call, or memory ran out. Accepted input is answered.
    ensures answer { Answers (survey_run seed size) no_shelf no_shelf
        (taken (K.written sink.old) (K.written sink.new) (K.faults sink.old) (K.faults sink.new)) result }
{
    let run = judge_generated(rt, alloc, seed, size, workers, gate);
    tell_run(&run, sink)
}
