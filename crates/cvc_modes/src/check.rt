//! All modes at once.
ghost use Rattle.std.specs.Prelude.{◌≡◌, ◌<◌, ◌≤◌, ◌++◌, ◌∷◌, [], ℕ, All, IfOk, OnOk, Ok, length, map, slice_index_or};
ghost use Rattle.cvc_judge.specs.Judged.{IsJudged};
ghost use Rattle.cvc_model.specs.Bindable.{AreBindable};
ghost use Rattle.cvc_power.specs.Power.{IsOrdered};
ghost use Rattle.cvc_modes.specs.Checked.{GivesModes, IfRefusedMode, IsBoundFrom, circuit_in, circuits_of};
ghost use Rattle.cvc_modes.specs.Modes.{most_modes};
ghost use Rattle.cvc_modes.specs.Tasks.{IsResult, circuit_to_settle};

use crate::gate::ModeGate;
use crate::{ModeRefusal, ModeResult, ModeResults, Powers};
use cvc_base::{NoMemory, Refusal};
use cvc_bind::bind;
use cvc_crew::{NoGate, settle};
use cvc_flat::Flat;
use cvc_judge::list_all;
use cvc_law::Circuit;
use cvc_model::Models;
use std::alloc::Global;
use std::sync::Wait;
use std::thread;
use std::thread::Threads;

// A circuit that is to be settled, and the number of its mode.
#[derive(Drop)]
struct Task {
    mode: u32,
    circuit: Circuit,
}

fn put_task(tasks: &mut Vec<Task>, task: Task) -> Result<(), NoMemory>
    ensures { OnOk result (tasks.new.items ≡ tasks.old.items ++ task ∷ []) }
{
    tasks.push(task)?;
    Ok(())
}

// The circuit of each mode, in order, or the first mode whose power rows don't bind.
fn bind_modes(
    alloc: Global,
    flat: &Flat,
    models: &Models,
    powers: &Powers,
) -> Result<Vec<Task>, ModeRefusal>
    requires models { AreBindable models.now }
    requires powers { All (All IsOrdered) powers.now }
    requires few { length powers.now ≤ most_modes }
    ensures circuits { GivesModes (λ tasks. map circuit_to_settle tasks.items) result (circuits_of flat.now.list models.now powers.now) }
    ensures within { IfRefusedMode result (λ mode. mode < length powers.now) }
    ensures bound { IfOk result (λ tasks. All (λ t. IsBoundFrom flat.now.list t.circuit) tasks.items) }
{
    let mut tasks = Vec::new(alloc);
    let mut mode = 0;
    for power in powers.as_slice() {
        match bind(alloc, flat, models, power) {
            Ok(circuit) => put_task(&mut tasks, Task { mode, circuit })?,
            Err(Refusal::At(fault)) => return Err(ModeRefusal::At(mode, fault)),
            Err(Refusal::NoMemory) => return Err(ModeRefusal::NoMemory),
        }
        mode += 1;
    }
    Ok(tasks)
}

// What is found in one mode, which one worker settles.
fn check_mode<R: Threads + Wait + Sync, G: ModeGate>(
    rt: &R,
    alloc: Global,
    task: Task,
    gate: &G,
) -> Result<ModeResult, NoMemory>
    ensures { IfOk result (IsResult task.circuit) }
{
    let Task { mode, circuit } = task;
    gate.before(mode);
    let family = settle(rt, alloc, &circuit, 1, &NoGate)?;
    let findings = list_all(alloc, &circuit, &family)?;
    Ok(ModeResult {
        circuit,
        family,
        findings,
    })
}

// What is found in each mode, in order. The modes are cut in halves again and again, and the halves run with a join.
fn check_each<R: Threads + Wait + Sync, G: ModeGate>(
    rt: &R,
    alloc: Global,
    tasks: Vec<Task>,
    gate: &G,
) -> Result<Vec<Result<ModeResult, NoMemory>>, NoMemory>
    ensures len { IfOk result (λ v. length v.items ≡ length tasks.items) }
    ensures each { IfOk result (λ v. (i : ℕ) (d : _) (t : Task) → i < length tasks.items
        → IfOk (slice_index_or v.items i d) (IsResult (slice_index_or tasks.items i t).circuit)) }
{
    let checked = thread::map_vec(rt, tasks, &|task: Task| check_mode(rt, alloc, task, gate))?;
    Ok(checked)
}

// All results, if each is there.
fn gather(
    alloc: Global,
    checked: Vec<Result<ModeResult, NoMemory>>,
) -> Result<ModeResults, NoMemory>
    ensures { IfOk result (λ rs. checked.items ≡ map (λ r. Ok r) rs) }
{
    let mut results = ModeResults::new(alloc);
    for one in checked {
        results.push(one?)?;
    }
    Ok(results)
}

/// The circuit, the least voltage family and the findings of each mode, in order; or the first mode whose power rows don't bind, with the fault of
/// `bind`. All modes are bound first, in order; then they are settled at once, each by one worker in a thread of its own where one can be made. The
/// gate is called once before each. It waits for its threads, so it isn't promised to return. Each mode takes the memory of a check, at the same time.
pub fn check_modes<R: Threads + Wait + Sync, G: ModeGate>(
    rt: &R,
    alloc: Global,
    flat: &Flat,
    models: &Models,
    powers: &Powers,
    gate: &G,
) -> Result<ModeResults, ModeRefusal>
    // What `read_models` and `read_power` give meets both.
    requires models { AreBindable models.now }
    requires powers { All (All IsOrdered) powers.now }
    requires few { length powers.now ≤ most_modes }
    ensures circuits { GivesModes (λ results. map circuit_in results) result (circuits_of flat.now.list models.now powers.now) }
    ensures within { IfRefusedMode result (λ mode. mode < length powers.now) }
    ensures judged { IfOk result (All IsJudged) }
    ensures bound { IfOk result (All (λ r. IsBoundFrom flat.now.list r.circuit)) }
{
    let tasks = bind_modes(alloc, flat, models, powers)?;
    let checked = check_each(rt, alloc, tasks, gate)?;
    Ok(gather(alloc, checked)?)
}
