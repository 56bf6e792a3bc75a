//! All findings of a set of rules, on one thread.
ghost use Rattle.std.specs.Prelude.{◌≡◌, length, IfOk};
ghost use Rattle.cvc_law.specs.Network.{nets, devices};
ghost use Rattle.cvc_findings.specs.Listed.{listed};
ghost use Rattle.cvc_findings.specs.Parts.{AreParts};

use crate::RuleSet;
use crate::join::joined;
use crate::part::{FoundByRule, RANGE, part};
use cvc_base::{Findings, NoMemory};
use cvc_law::{Circuit, Family};
use std::alloc::{AllocError, Global};

/// What is found in each range, in order.
fn parts<S: RuleSet>(
    alloc: Global,
    circuit: &Circuit,
    family: &Family,
) -> Result<Vec<Result<FoundByRule, NoMemory>>, AllocError>
    requires { length family.now ≡ nets circuit.now }
    ensures { IfOk result (λ parts. AreParts (S.finds circuit.now family.now) S.rules (devices circuit.now) parts.items) }
{
    let mut parts = Vec::new(alloc);
    for k in 0..circuit.devices() / RANGE + 1 {
        parts.push(part::<S>(alloc, circuit, family, k))?;
    }
    Ok(parts)
}

/// The findings of a set of rules in the report's order: by rule, and of one rule by device. One walk over the devices finds them, range by range.
pub fn list<S: RuleSet>(
    alloc: Global,
    circuit: &Circuit,
    family: &Family,
) -> Result<Findings, NoMemory>
    requires { length family.now ≡ nets circuit.now }
    ensures { IfOk result (λ found. found ≡ listed (S.finds circuit.now family.now) (devices circuit.now) S.rules) }
{
    let parts = parts::<S>(alloc, circuit, family)?;
    joined::<S>(alloc, &parts)
}
