//! All findings of the rules about leaks, supplies and gates, on one thread or by many.
ghost use Rattle.std.specs.Prelude.{◌≡◌, length, IfOk};
ghost use Rattle.cvc_law.specs.Network.{nets};
ghost use Rattle.cvc_law.specs.Rules.{leak_rules};
ghost use Rattle.cvc_leak.specs.Leak.{leak_finding, leak_findings};

use crate::at::leak_at;
use cvc_base::{DevId, Finding, Findings, NoMemory, Rule};
use cvc_findings::{RuleSet, list, par_list};
use cvc_law::{Circuit, Family};
use std::alloc::Global;
use std::thread::Threads;

/// The rules about leaks, supplies and gates.
struct LeakRules;

impl RuleSet for LeakRules {
    ghost rules = { leak_rules };

    ghost finds = { leak_finding };

    fn rules() -> &'static [Rule] {
        &[
            Rule::PossibleLeak,
            Rule::SupplyPath,
            Rule::FloatingGate,
            Rule::SureLeak,
        ]
    }

    fn find(circuit: &Circuit, family: &Family, rule: Rule, d: DevId) -> Option<Finding> {
        leak_at(circuit, family, rule, d)
    }
}

/// The findings of the rules about leaks, supplies and gates in the report's order: by rule, and of one rule by device.
/// One walk over the devices finds them, a list for each rule.
#[tactic(auto, using(crate::proofs::Listed::all_rules))]
pub fn list_leak(alloc: Global, circuit: &Circuit, family: &Family) -> Result<Findings, NoMemory>
    requires { length family.now ≡ nets circuit.now }
    ensures { IfOk result (λ found. found ≡ leak_findings circuit.now family.now) }
{
    list::<LeakRules>(alloc, circuit, family)
}

/// The same list as `list_leak` gives, found by as many threads as there are processors, each of which takes ranges of devices.
#[tactic(auto, using(crate::proofs::Listed::all_rules))]
pub fn par_list_leak(
    rt: &(impl Threads + Sync),
    alloc: Global,
    circuit: &Circuit,
    family: &Family,
) -> Result<Findings, NoMemory>
    requires { length family.now ≡ nets circuit.now }
    ensures { IfOk result (λ found. found ≡ leak_findings circuit.now family.now) }
{
    par_list::<LeakRules>(rt, alloc, circuit, family)
}
