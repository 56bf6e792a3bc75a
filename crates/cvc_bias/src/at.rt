//! The rules about pins at one device.
ghost use Rattle.std.specs.Prelude.{◌≡◌, ◌<◌, ◌≤◌, length, IsTrue};
ghost use Rattle.cvc_base.specs.declared.device.Kind.{Kind};
ghost use Rattle.cvc_law.specs.Network.{Network, nets, devices, is_mos, IsDevice};
ghost use Rattle.cvc_law.specs.Family.{interval_at};
ghost use Rattle.cvc_law.specs.Rules.{exceeding, spread, source_bulk, holds};
ghost use Rattle.cvc_bias.specs.Bias.{bias_finding};
ghost use Rattle.cvc_bias.specs.Measured.{numbers_of, bias_numbers};

use crate::excess::{Excess, difference, exceeding, greater_of, spread};
use cvc_base::{DevId, Finding, Kind, Mv, NetId, Rule};
use cvc_law::{Circuit, Device, Family};

/// The pattern of the rules of overvoltage: two nets that can be further apart than a limit.
fn overvoltage(family: &Family, limit: Option<Mv>, x: NetId, y: NetId) -> Option<Excess>
    requires x { x.0 < length family.now }
    requires y { y.0 < length family.now }
    ensures { numbers_of result ≡ exceeding limit (spread (interval_at family.now x.0) (interval_at family.now y.0)) }
{
    exceeding(limit?, spread(&family.interval(x), &family.interval(y)))
}

/// How far the junction between bulk and source or drain can be biased forward.
fn junction_bias(family: &Family, device: &Device) -> Option<Excess>
    requires sound { IsDevice (length family.now) device.now }
    requires mos { IsTrue (is_mos device.now.kind) }
    ensures { (c : Network) → numbers_of result ≡ holds c family.now device.now Rule.SourceBulk }
{
    let bulk = family.interval(device.bulk());
    let source = family.interval(device.end_b());
    let drain = family.interval(device.end_a());
    let found = match device.kind {
        Kind::Nmos => greater_of(
            difference(bulk.high, source.low),
            difference(bulk.high, drain.low),
        ),
        _ => greater_of(
            difference(source.high, bulk.low),
            difference(drain.high, bulk.low),
        ),
    };
    exceeding(device.volts.junction, found)
}

/// What a rule finds at a MOS.
fn mos_excess(family: &Family, device: &Device, rule: Rule) -> Option<Excess>
    requires sound { IsDevice (length family.now) device.now }
    requires mos { IsTrue (is_mos device.now.kind) }
    ensures { (c : Network) → numbers_of result ≡ bias_numbers c family.now device.now rule }
{
    let volts = &device.volts;
    let drain = device.end_a();
    let source = device.end_b();
    match rule {
        Rule::OvervoltageGs => overvoltage(family, volts.vgs, device.gate(), source),
        Rule::OvervoltageGd => overvoltage(family, volts.vgd, device.gate(), drain),
        Rule::OvervoltageDs => overvoltage(family, volts.vds, drain, source),
        Rule::OvervoltageBs => overvoltage(family, volts.vbs, device.bulk(), source),
        Rule::OvervoltageBd => overvoltage(family, volts.vbd, device.bulk(), drain),
        Rule::OvervoltageBg => overvoltage(family, volts.vbg, device.bulk(), device.gate()),
        Rule::SourceBulk => junction_bias(family, device),
        Rule::ForwardBias
        | Rule::PossibleLeak
        | Rule::SupplyPath
        | Rule::FloatingGate
        | Rule::SureLeak => None,
    }
}

/// How far a diode can be biased forward beyond its drop.
fn forward_bias(family: &Family, device: &Device) -> Option<Excess>
    requires sound { IsDevice (length family.now) device.now }
    requires diode { device.now.kind ≡ Kind.Diode }
    ensures { (c : Network) → numbers_of result ≡ holds c family.now device.now Rule.ForwardBias }
{
    let anode = family.interval(device.end_a());
    let cathode = family.interval(device.end_b());
    exceeding(device.volts.drop, difference(anode.high, cathode.low))
}

/// What a rule finds at a device.
fn excess_at(family: &Family, device: &Device, rule: Rule) -> Option<Excess>
    requires { IsDevice (length family.now) device.now }
    ensures { (c : Network) → numbers_of result ≡ bias_numbers c family.now device.now rule }
{
    match device.kind {
        Kind::Nmos | Kind::Pmos => mos_excess(family, device, rule),
        Kind::Diode => match rule {
            Rule::ForwardBias => forward_bias(family, device),
            _ => None,
        },
        Kind::Resistor | Kind::Capacitor | Kind::Inductor | Kind::Bipolar => None,
    }
}

/// The finding of one of the rules about pins at a device: its limit and the greatest difference, in millivolts.
/// `None` where the rule doesn't hold, and for every other rule.
pub fn bias_at(circuit: &Circuit, family: &Family, rule: Rule, d: DevId) -> Option<Finding>
    requires family { length family.now ≡ nets circuit.now }
    requires device { d.0 < devices circuit.now }
    ensures { result ≡ bias_finding circuit.now family.now rule d.0 }
{
    let excess = excess_at(family, circuit.device(d), rule)?;
    Some(Finding {
        rule,
        device: d,
        first: excess.limit,
        second: excess.found,
        third: 0,
        fourth: 0,
    })
}
