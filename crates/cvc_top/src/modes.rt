//! The run of `modes`: one design under each power file of a list.
ghost use Rattle.std.specs.Prelude.{◌≡◌, ◌<◌, ◌≤◌, [], None, All, IfOk, IfSome, length, map};
ghost use Rattle.cvc_cdl.specs.Builder.{named_top};
ghost use Rattle.cvc_io.specs.Causes.{Rose};
ghost use Rattle.cvc_io.specs.Files.{content};
ghost use Rattle.cvc_judge.specs.Judged.{IsJudged};
ghost use Rattle.cvc_model.specs.Bindable.{AreBindable};
ghost use Rattle.cvc_modes.specs.Checked.{IsOfFlat, circuit_in};
ghost use Rattle.cvc_modes.specs.Modes.{modes_of, most_modes};
ghost use Rattle.cvc_power.specs.Power.{IsOrdered, power_of};
ghost use Rattle.cvc_run.specs.Due.{DueFailed};
ghost use Rattle.cvc_run.specs.Lines.{run_refused_ending};
ghost use Rattle.cvc_run.specs.Loads.{OfContent};
ghost use Rattle.cvc_run.specs.Outside.{Ends, taken};
ghost use Rattle.cvc_run.specs.Run.{Answers};
ghost use Rattle.cvc_run.specs.Shelves.{Leaves};
ghost use Rattle.cvc_run.specs.Stages.{at_stage};
ghost use Rattle.cvc_run.specs.Stops.{IfAt, ReadOnlyWhere, Says};
ghost use Rattle.cvc_run.specs.Telling.{TellsRun};
ghost use Rattle.cvc_run.specs.declared.stage.Stage.TheVariants as steps;
ghost use Rattle.cvc_top.specs.Modes.{
  IsOfModes,
  PowerFailed,
  binding_stop as binding_stop_of,
  bound_modes,
  in_mode,
  line_cause as line_cause_of,
  list_stop as list_stop_of,
  listed_of,
  mode_ending,
  mode_stop as mode_stop_of,
  modes_due,
  modes_ending,
  modes_run,
  of_list,
  powers_behind,
};
ghost use Rattle.cvc_top.specs.ModesHeld.{listed_view};

use crate::refused::file_word;
use cvc_base::Text;
use cvc_flat::Flat;
use cvc_io::{Shelf, Sink, WriteFailed};
use cvc_modes::{
    ListCause, ListRefusal, ModeGate, ModeList, ModeRefusal, ModeResults, ModeRow, Powers,
    check_modes, read_modes, write_modes,
};
use cvc_power::Power;
use cvc_report::write_line_refusal;
use cvc_run::{
    Design, LineCause, LineRefused, Refused, RunRefused, RunStop, Stage, Status, Subject, Told,
    load_text, read_design, read_power_file, tell, tell_run,
};
use cvc_text::Word;
use std::alloc::Global;
use std::sync::Wait;
use std::thread::Threads;

// The most bytes of a list of modes.
const LIST_LIMIT: u64 = 16_777_216;

/// What is refused of a mode: its power file or its binding. The mode is its place in the list, from 0.
#[derive(Clone, Copy, Debug, PartialEq, Eq)]
struct ModeRefused {
    mode: u32,
    refused: Refused,
}

/// A design, and its modes.
#[derive(Drop)]
struct Listed {
    design: Design,
    list: ModeList,
}

// Why a line of a list is refused, as runs tell it.
fn line_cause(cause: ListCause) -> LineCause
    ensures { result ≡ line_cause_of cause }
{
    match cause {
        ListCause::Text(cause) => LineCause::Text(cause),
        ListCause::TooMany => LineCause::TooManyModes,
    }
}

// Why there is no list, as a stop of the run.
fn list_stop(refusal: ListRefusal) -> RunStop<RunRefused>
    ensures { result ≡ list_stop_of refusal }
{
    match refusal {
        ListRefusal::At(fault) => RunStop::At(RunRefused::Line(LineRefused {
            subject: Subject::Modes,
            line: fault.line,
            cause: line_cause(fault.cause),
        })),
        ListRefusal::NoMemory => RunStop::NoMemory,
    }
}

// The modes of the list of this name.
fn read_list<S: Shelf>(
    alloc: Global,
    name: &Text,
    shelf: &mut S,
) -> Result<ModeList, RunStop<RunRefused>>
    requires { S.standing shelf.old ≡ None }
    ensures rows { OfContent (S.files shelf.old) name.now (λ content. Says (λ rows. rows) result (of_list (modes_of content))) }
    ensures few { IfOk result (λ list. length list ≤ most_modes) }
    ensures status { IfAt result (λ r. IsOfModes (run_refused_ending r).status) }
    ensures cause { ReadOnlyWhere result (Rose (S.faults shelf.old name.now) (S.faults shelf.new name.now)) }
    ensures shelf { Leaves (S.standing shelf.new) (S.files shelf.old) (S.files shelf.new) (S.faults shelf.old) (S.faults shelf.new) }
{
    let text = load_text::<RunRefused, S>(alloc, name, LIST_LIMIT, shelf)?;
    match read_modes(alloc, text.bytes()) {
        Ok(list) => Ok(list),
        Err(refusal) => Err(list_stop(refusal)),
    }
}

// The design and the modes of its list. Each file is opened only when all before it were accepted, which is tested.
fn read_listed<S: Shelf>(
    alloc: Global,
    netlist: &Text,
    models: &Text,
    list: &Text,
    top: Option<&Text>,
    shelf: &mut S,
) -> Result<Listed, RunStop<RunRefused>>
    requires { S.standing shelf.old ≡ None }
    ensures said { IfSome (S.files shelf.old) (λ fs. Says listed_view result
        (listed_of (named_top top.entry) (content fs netlist.now) (content fs models.now) (content fs list.now))) }
    ensures bindable { IfOk result (λ l. AreBindable l.design.models) }
    ensures few { IfOk result (λ l. length l.list ≤ most_modes) }
    ensures status { IfAt result (λ r. IsOfModes (run_refused_ending r).status) }
    ensures cause { ReadOnlyWhere result
        (DueFailed (modes_due (S.files shelf.old) (named_top top.entry) netlist.now models.now list.now) (S.faults shelf.old) (S.faults shelf.new)) }
    ensures shelf { Leaves (S.standing shelf.new) (S.files shelf.old) (S.files shelf.new) (S.faults shelf.old) (S.faults shelf.new) }
{
    let design = read_design(alloc, netlist, models, top, shelf)?;
    let list = read_list(alloc, list, shelf)?;
    Ok(Listed { design, list })
}

// A stop at the power file of this mode.
fn mode_stop(mode: u32, stop: RunStop<Refused>) -> RunStop<ModeRefused>
    ensures { result ≡ mode_stop_of mode stop }
{
    match stop {
        RunStop::At(refused) => RunStop::At(ModeRefused { mode, refused }),
        RunStop::Read => RunStop::Read,
        RunStop::NoMemory => RunStop::NoMemory,
    }
}

// The power rows of a mode.
fn read_power<S: Shelf>(
    alloc: Global,
    mode: u32,
    row: &ModeRow,
    shelf: &mut S,
) -> Result<Power, RunStop<ModeRefused>>
    requires { S.standing shelf.old ≡ None }
    ensures rows { OfContent (S.files shelf.old) row.now.file (λ content. Says (λ p. p) result (in_mode mode (at_stage steps.Power (power_of content)))) }
    ensures ordered { IfOk result (All IsOrdered) }
    ensures of_mode { IfAt result (λ r. r.mode ≡ mode) }
    ensures cause { ReadOnlyWhere result (Rose (S.faults shelf.old row.now.file) (S.faults shelf.new row.now.file)) }
    ensures shelf { Leaves (S.standing shelf.new) (S.files shelf.old) (S.files shelf.new) (S.faults shelf.old) (S.faults shelf.new) }
{
    match read_power_file(alloc, &row.file, shelf) {
        Ok(power) => Ok(power),
        Err(stop) => Err(mode_stop(mode, stop)),
    }
}

// The power rows of all modes, or the first power file that is refused. Each is opened only when all before it were accepted, which is tested.
fn read_powers<S: Shelf>(
    alloc: Global,
    rows: &[ModeRow],
    shelf: &mut S,
) -> Result<Powers, RunStop<ModeRefused>>
    requires few { length rows.now ≤ most_modes }
    requires closed { S.standing shelf.old ≡ None }
    ensures powers { IfSome (S.files shelf.old) (λ fs. Says (λ ps. ps) result (powers_behind fs [] rows.now)) }
    ensures ordered { IfOk result (All (All IsOrdered)) }
    ensures as_many { IfOk result (λ ps. length ps ≡ length rows.now) }
    ensures within { IfAt result (λ r. r.mode < length rows.now) }
    ensures cause { ReadOnlyWhere result (PowerFailed (S.files shelf.old) rows.now (S.faults shelf.old) (S.faults shelf.new)) }
    ensures shelf { Leaves (S.standing shelf.new) (S.files shelf.old) (S.files shelf.new) (S.faults shelf.old) (S.faults shelf.new) }
{
    let mut powers = Powers::new(alloc);
    let mut mode = 0;
    for row in rows {
        let power = read_power(alloc, mode, row, shelf)?;
        powers.push(power)?;
        mode += 1;
    }
    Ok(powers)
}

// Why modes are not checked, as a stop of the run.
fn binding_stop(refusal: ModeRefusal) -> RunStop<ModeRefused>
    ensures { result ≡ binding_stop_of refusal }
{
    match refusal {
        ModeRefusal::At(mode, fault) => RunStop::At(ModeRefused {
            mode,
            refused: Refused {
                stage: Stage::Binding,
                fault,
            },
        }),
        ModeRefusal::NoMemory => RunStop::NoMemory,
    }
}

// What is found in each mode, or the first mode that is refused.
fn check_listed<R: Threads + Wait + Sync, S: Shelf, G: ModeGate>(
    rt: &R,
    alloc: Global,
    listed: &Listed,
    shelf: &mut S,
    gate: &G,
) -> Result<ModeResults, RunStop<ModeRefused>>
    requires bindable { AreBindable listed.now.design.models }
    requires few { length listed.now.list ≤ most_modes }
    requires closed { S.standing shelf.old ≡ None }
    ensures said { IfSome (S.files shelf.old) (λ fs. Says (λ js. map circuit_in js) result (bound_modes fs (listed_view listed.now))) }
    ensures judged { IfOk result (All IsJudged) }
    ensures of_flat { IfOk result (All (IsOfFlat listed.now.design.flat.list)) }
    ensures as_many { IfOk result (λ js. length js ≡ length listed.now.list) }
    ensures within { IfAt result (λ r. r.mode < length listed.now.list) }
    ensures cause { ReadOnlyWhere result (PowerFailed (S.files shelf.old) listed.now.list (S.faults shelf.old) (S.faults shelf.new)) }
    ensures shelf { Leaves (S.standing shelf.new) (S.files shelf.old) (S.files shelf.new) (S.faults shelf.old) (S.faults shelf.new) }
{
    let powers = read_powers(alloc, listed.list.as_slice(), shelf)?;
    let Design { flat, models } = &listed.design;
    match check_modes(rt, alloc, flat, models, &powers, gate) {
        Ok(results) => Ok(results),
        Err(refusal) => Err(binding_stop(refusal)),
    }
}

// What all modes tell.
#[derive(Drop)]
struct ModesTold<'a> {
    flat: &'a Flat,
    list: &'a ModeList,
    results: &'a ModeResults,
}

impl Told for ModesTold<'_> {
    ghost use Rattle.cvc_top.specs.ModesHeld.{CanTellModes, told_modes};

    ghost told = { told_modes };

    ghost can_tell = { CanTellModes };

    #[tactic(auto, using(crate::proofs::ModesTold::some_found, crate::proofs::ModesTold::none_found, crate::proofs::ModesTold::none_more))]
    fn status(&self) -> Status {
        for mode in self.results.as_slice() {
            if !mode.findings.is_empty() {
                return Status::Errors;
            }
        }
        Status::Clean
    }

    fn write<K: Sink>(&self, sink: &mut K) -> Result<(), WriteFailed> {
        write_modes(self.list, self.flat, self.results, sink)
    }
}

// The refusal of the mode of this name.
#[derive(Drop)]
struct NamedRefusal<'a> {
    mode: &'a [u8],
    refused: Refused,
}

impl Told for NamedRefusal<'_> {
    ghost use Rattle.cvc_top.specs.ModesHeld.{told_refusal};

    ghost told = { told_refusal };

    ghost can_tell = { λ _. Unit {0} };

    fn status(&self) -> Status {
        self.refused.stage.status()
    }

    fn write<K: Sink>(&self, sink: &mut K) -> Result<(), WriteFailed> {
        let fault = self.refused.fault;
        let subject = [
            Word::Text(b"mode"),
            Word::Text(self.mode),
            Word::Text(file_word(fault.place.file)),
        ];
        write_line_refusal(&subject, fault.place.line, fault.cause.word(), sink)
    }
}

// Tells what is refused of a mode of the list.
fn tell_refused<K: Sink>(list: &ModeList, refused: &ModeRefused, sink: &mut K) -> Status
    requires { refused.now.mode < length list.now }
    ensures counts { K.faults sink.old ≤ K.faults sink.new }
    ensures ends { Ends (mode_ending list.now refused.now) (taken (K.written sink.old) (K.written sink.new) (K.faults sink.old) (K.faults sink.new)) result }
{
    let row = list.get(refused.mode as usize);
    let named = NamedRefusal {
        mode: row.name.bytes(),
        refused: refused.refused,
    };
    tell(&named, sink)
}

// Ends a run whose list was accepted.
fn tell_modes<K: Sink>(
    listed: &Listed,
    run: &Result<ModeResults, RunStop<ModeRefused>>,
    sink: &mut K,
) -> Status
    requires few { length listed.now.list ≤ most_modes }
    requires of_flat { IfOk run.now (All (IsOfFlat listed.now.design.flat.list)) }
    requires as_many { IfOk run.now (λ js. length js ≡ length listed.now.list) }
    requires within { IfAt run.now (λ r. r.mode < length listed.now.list) }
    ensures counts { K.faults sink.old ≤ K.faults sink.new }
    ensures told { TellsRun (modes_ending listed.now.design.flat.list listed.now.list) (mode_ending listed.now.list) run.now
        (taken (K.written sink.old) (K.written sink.new) (K.faults sink.old) (K.faults sink.new)) result }
{
    match run {
        Ok(results) => {
            let told = ModesTold {
                flat: &listed.design.flat,
                list: &listed.list,
                results,
            };
            tell(&told, sink)
        }
        Err(RunStop::At(refused)) => tell_refused(&listed.list, refused, sink),
        Err(RunStop::Read) => Status::ReadFault,
        Err(RunStop::NoMemory) => Status::NoMemory,
    }
}

/// Checks a design under each power file of a list, all modes at once, and writes the report of each; or the line of the first refusal, in the order of the
/// netlist, the models, the list, the modes' power files and the modes' bindings. The design is read once. It leaves no file open. The gate is called once
/// before each mode is settled. It waits for its threads, so it isn't promised to return.
pub(crate) fn modes<R: Threads + Wait + Sync, S: Shelf, K: Sink, G: ModeGate>(
    rt: &R,
    alloc: Global,
    netlist: &Text,
    models: &Text,
    list: &Text,
    top: Option<&Text>,
    shelf: &mut S,
    sink: &mut K,
    gate: &G,
) -> Status
    requires { S.standing shelf.old ≡ None }
    ensures shelf { Leaves (S.standing shelf.new) (S.files shelf.old) (S.files shelf.new) (S.faults shelf.old) (S.faults shelf.new) }
    ensures sink { K.faults sink.old ≤ K.faults sink.new }
    ensures answer { Answers (modes_run (S.files shelf.old) (named_top top.entry) netlist.now models.now list.now) (S.faults shelf.old) (S.faults shelf.new)
        (taken (K.written sink.old) (K.written sink.new) (K.faults sink.old) (K.faults sink.new)) result }
{
    match read_listed(alloc, netlist, models, list, top, shelf) {
        Ok(listed) => {
            let run = check_listed(rt, alloc, &listed, shelf, gate);
            tell_modes(&listed, &run, sink)
        }
        Err(stop) => {
            let run: Result<ModesTold, RunStop<RunRefused>> = Err(stop);
            tell_run(&run, sink)
        }
    }
}
