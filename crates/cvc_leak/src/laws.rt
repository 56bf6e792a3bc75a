//! Laws of the rules. Each is the contract of a function that does nothing.
ghost use Rattle.std.specs.Prelude.{◌≡◌, ℕ, ◌≤ℤ◌, List, ◌++◌, IsSome};
ghost use Rattle.std.specs.List.{flat_map};
ghost use Rattle.cvc_base.specs.declared.rule.Rule.{Rule};
ghost use Rattle.cvc_law.specs.declared.device.Device.{Device};
ghost use Rattle.cvc_law.specs.declared.interval.Interval.{Interval};
ghost use Rattle.cvc_law.specs.Network.{Network, IsCircuit};
ghost use Rattle.cvc_law.specs.Rules.{holds, finding_at, findings_by, findings_of, bias_rules};
ghost use Rattle.cvc_leak.specs.Leak.{leak_findings};

/// A sure leak is a possible leak: of a device whose corner that conducts most has the lesser threshold, as in every circuit, and in every family.
pub fn a_sure_leak_is_a_possible_leak()
    ensures device { (c : Network) (f : List Interval) (d : Device) → d.volts.threshold ≤ℤ d.volts.weak → IsSome (holds c f d Rule.SureLeak)
        → IsSome (holds c f d Rule.PossibleLeak) }
    ensures circuit { (c : Network) (f : List Interval) (i : ℕ) → IsCircuit c.fixed c.devices → IsSome (finding_at c f Rule.SureLeak i)
        → IsSome (finding_at c f Rule.PossibleLeak i) }
{}

/// All findings are those of the rules about pins and then those of this crate's rules.
pub fn both_lists_are_all_findings()
    ensures { (c : Network) (f : List Interval) → findings_of c f ≡ flat_map (findings_by c f) bias_rules ++ leak_findings c f }
{}
