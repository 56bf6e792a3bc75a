//! Sets of rules.
ghost use Rattle.std.specs.Prelude.{◌≡◌, ◌<◌, ℕ, List, Option, length};
ghost use Rattle.cvc_base.specs.declared.rule.Rule.{Rule};
ghost use Rattle.cvc_base.specs.declared.finding.Finding.{Finding};
ghost use Rattle.cvc_law.specs.declared.interval.Interval.{Interval};
ghost use Rattle.cvc_law.specs.Network.{Network, nets, devices};

use cvc_base::{DevId, Finding, Rule};
use cvc_law::{Circuit, Family};

/// A set of rules, each of which finds something or nothing at a device.
pub trait RuleSet {
    /// The rules, in the report's order.
    ghost rules: { List Rule };

    /// What a rule finds at a device, by its number.
    ghost finds: { Network → List Interval → Rule → ℕ → Option Finding };

    /// The rules, in the report's order.
    fn rules() -> &'static [Rule]
        ensures { result.now ≡ rules };

    /// What a rule finds at a device.
    fn find(circuit: &Circuit, family: &Family, rule: Rule, d: DevId) -> Option<Finding>
        requires family { length family.now ≡ nets circuit.now }
        requires device { d.0 < devices circuit.now }
        ensures { result ≡ finds circuit.now family.now rule d.0 };
}
