//! All findings of the rules about pins, on one thread or by many.
ghost use Rattle.std.specs.Prelude.{◌≡◌, length, IfOk};
ghost use Rattle.cvc_law.specs.Network.{nets};
ghost use Rattle.cvc_law.specs.Rules.{bias_rules};
ghost use Rattle.cvc_bias.specs.Bias.{bias_finding, bias_findings};

use crate::at::bias_at;
use cvc_base::{DevId, Finding, Findings, NoMemory, Rule};
use cvc_findings::{RuleSet, list, par_list};
use cvc_law::{Circuit, Family};
use std::alloc::Global;
use std::thread::Threads;

/// The rules about pins.
struct BiasRules;

impl RuleSet for BiasRules {
    ghost rules = { bias_rules };

    ghost finds = { bias_finding };

    fn rules() -> &'static [Rule] {
        &[
            Rule::OvervoltageGs,
            Rule::OvervoltageGd,
            Rule::OvervoltageDs,
            Rule::OvervoltageBs,
            Rule::OvervoltageBd,
            Rule::OvervoltageBg,
            Rule::ForwardBias,
            Rule::SourceBulk,
        ]
    }

    fn find(circuit: &Circuit, family: &Family, rule: Rule, d: DevId) -> Option<Finding> {
        bias_at(circuit, family, rule, d)
    }
}

/// The findings of the rules about pins in the report's order: by rule, and of one rule by device.
/// One walk over the devices finds them, a list for each rule.
#[tactic(auto, using(crate::proofs::Listed::all_rules))]
pub fn list_bias(alloc: Global, circuit: &Circuit, family: &Family) -> Result<Findings, NoMemory>
    requires { length family.now ≡ nets circuit.now }
    ensures { IfOk result (λ found. found ≡ bias_findings circuit.now family.now) }
{
    list::<BiasRules>(alloc, circuit, family)
}

/// The same list as `list_bias` gives, found by as many threads as there are processors, each of which takes ranges of devices.
#[tactic(auto, using(crate::proofs::Listed::all_rules))]
pub fn par_list_bias(
    rt: &(impl Threads + Sync),
    alloc: Global,
    circuit: &Circuit,
    family: &Family,
) -> Result<Findings, NoMemory>
    requires { length family.now ≡ nets circuit.now }
    ensures { IfOk result (λ found. found ≡ bias_findings circuit.now family.now) }
{
    par_list::<BiasRules>(rt, alloc, circuit, family)
}
