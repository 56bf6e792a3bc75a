//! A circuit with all that is known of it.
ghost use Rattle.std.specs.Prelude.{◌≡◌, ◌≤◌, IfOk};
ghost use Rattle.cvc_judge.specs.Judged.{IsJudged};

use crate::all::{list_all, par_list_all};
use cvc_base::{Findings, NoMemory};
use cvc_crew::{Gate, settle};
use cvc_law::{Circuit, Family};
use cvc_serial::settle_serial;
use std::alloc::Global;
use std::sync::Wait;
use std::thread::Threads;

/// A circuit, its least family, and all findings there in the report's order.
#[derive(Drop)]
pub struct Judged {
    pub circuit: Circuit,
    pub family: Family,
    pub findings: Findings,
}

/// Judges a circuit on one thread. It always returns.
pub fn judge_serial(alloc: Global, circuit: Circuit) -> Result<Judged, NoMemory>
    ensures kept { IfOk result (λ j. j.circuit ≡ circuit) }
    ensures judged { IfOk result IsJudged }
{
    let family = settle_serial(alloc, &circuit)?;
    let findings = list_all(alloc, &circuit, &family)?;
    Ok(Judged {
        circuit,
        family,
        findings,
    })
}

/// Judges a circuit: 1 to 64 workers settle it, and as many threads as there are processors list its findings. The answer is that of `judge_serial`
/// for every number of workers, gate and schedule. It waits for its workers, so it isn't promised to return.
pub fn judge<R: Threads + Wait + Sync, G: Gate>(
    rt: &R,
    alloc: Global,
    circuit: Circuit,
    workers: u32,
    gate: &G,
) -> Result<Judged, NoMemory>
    requires some { 1 ≤ workers }
    requires few { workers ≤ 64 }
    ensures kept { IfOk result (λ j. j.circuit ≡ circuit) }
    ensures judged { IfOk result IsJudged }
{
    let family = settle(rt, alloc, &circuit, workers, gate)?;
    let findings = par_list_all(rt, alloc, &circuit, &family)?;
    Ok(Judged {
        circuit,
        family,
        findings,
    })
}
