//! Counts that are printed.
ghost use Rattle.std.specs.Prelude.{◌≡◌, count_by};
ghost use Rattle.cvc_report.specs.Counts.{declared_count, is_of_rule};

use cvc_base::{Finding, NetId, Rule};
use cvc_law::Circuit;

/// How many nets are declared.
pub(crate) fn count_declared(circuit: &Circuit) -> u32
    ensures { result ≡ declared_count circuit.now }
{
    let mut declared = 0;
    for n in 0..circuit.nets() {
        if circuit.fixed(NetId(n)).is_some() {
            declared += 1;
        }
    }
    declared
}

/// How many of the findings are of the rule.
pub(crate) fn count_of_rule(findings: &[Finding], rule: Rule) -> usize
    ensures { result ≡ count_by (is_of_rule rule) findings.now }
{
    findings.iter().filter(|x| x.rule == rule).count()
}
