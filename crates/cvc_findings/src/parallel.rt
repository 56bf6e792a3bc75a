//! The same list by many threads, each of which takes ranges of devices.
ghost use Rattle.std.specs.Prelude.{◌≡◌, ◌≤◌, length, IfOk};
ghost use Rattle.cvc_law.specs.Network.{nets, devices};
ghost use Rattle.cvc_findings.specs.Listed.{listed};
ghost use Rattle.cvc_findings.specs.Parts.{IsPart, AreParts};

use crate::RuleSet;
use crate::join::joined;
use crate::part::{FoundByRule, RANGE, part};
use cvc_base::{Findings, NoMemory};
use cvc_law::{Circuit, Family};
use rayon::prelude::*;
use std::alloc::{AllocError, Global};
use std::thread::Threads;

/// What is found in each range, in order.
fn par_parts<S: RuleSet + Sync>(
    rt: &(impl Threads + Sync),
    alloc: Global,
    circuit: &Circuit,
    family: &Family,
) -> Result<Vec<Result<FoundByRule, NoMemory>>, AllocError>
    requires { length family.now ≡ nets circuit.now }
    ensures { IfOk result (λ parts. AreParts (S.finds circuit.now family.now) S.rules (devices circuit.now) parts.items) }
{
    let count = circuit.devices() / RANGE + 1;
    (0..count)
        .into_par_iter()
        .with_min_len(1)
        .map(
            move |k: u32| -> Result<FoundByRule, NoMemory>
                requires { (length family.now ≡ nets circuit.now) × (k ≤ devices circuit.now) }
                ensures { IfOk result (IsPart (S.finds circuit.entry.now family.entry.now) S.rules (devices circuit.entry.now) k) }
            { part::<S>(alloc, circuit, family, k) },
        )
        .collect(rt, alloc)
}

/// The same list as `list` gives, found by as many threads as there are processors, each of which takes ranges of devices.
pub fn par_list<S: RuleSet + Sync>(
    rt: &(impl Threads + Sync),
    alloc: Global,
    circuit: &Circuit,
    family: &Family,
) -> Result<Findings, NoMemory>
    requires { length family.now ≡ nets circuit.now }
    ensures { IfOk result (λ found. found ≡ listed (S.finds circuit.now family.now) (devices circuit.now) S.rules) }
{
    let parts = par_parts::<S>(rt, alloc, circuit, family)?;
    joined::<S>(alloc, &parts)
}
