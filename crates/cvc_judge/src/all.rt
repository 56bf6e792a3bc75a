//! All findings of a circuit at a family: those of the rules about pins, and then those of the rules about leaks, supplies and gates.
ghost use Rattle.std.specs.Prelude.{◌≡◌, ◌++◌, IfOk, length};
ghost use Rattle.cvc_law.specs.Network.{nets};
ghost use Rattle.cvc_law.specs.Rules.{findings_of};

use cvc_base::{Findings, NoMemory};
use cvc_bias::{list_bias, par_list_bias};
use cvc_findings::put_all;
use cvc_law::{Circuit, Family};
use cvc_leak::laws::both_lists_are_all_findings;
use cvc_leak::{list_leak, par_list_leak};
use std::alloc::Global;
use std::thread::Threads;

/// One list after another.
fn joined(first: Findings, then: &Findings) -> Result<Findings, NoMemory>
    ensures { IfOk result (λ all. all ≡ first ++ then.now) }
{
    let mut all = first;
    put_all(then.as_slice(), &mut all)?;
    Ok(all)
}

/// All findings in the report's order: by rule, and of one rule by device.
pub fn list_all(alloc: Global, circuit: &Circuit, family: &Family) -> Result<Findings, NoMemory>
    requires { length family.now ≡ nets circuit.now }
    ensures { IfOk result (λ found. found ≡ findings_of circuit.now family.now) }
{
    both_lists_are_all_findings();
    joined(
        list_bias(alloc, circuit, family)?,
        &list_leak(alloc, circuit, family)?,
    )
}

/// The same list as `list_all` gives, found by as many threads as there are processors.
pub fn par_list_all(
    rt: &(impl Threads + Sync),
    alloc: Global,
    circuit: &Circuit,
    family: &Family,
) -> Result<Findings, NoMemory>
    requires { length family.now ≡ nets circuit.now }
    ensures { IfOk result (λ found. found ≡ findings_of circuit.now family.now) }
{
    both_lists_are_all_findings();
    joined(
        par_list_bias(rt, alloc, circuit, family)?,
        &par_list_leak(rt, alloc, circuit, family)?,
    )
}
