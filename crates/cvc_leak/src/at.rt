//! The rules about leaks, supplies and gates at one device.
ghost use Rattle.std.specs.Prelude.{◌≡◌, ◌<◌, length};
ghost use Rattle.cvc_law.specs.Network.{Network, nets, devices, IsDevice, is_mos, gate, end_a, end_b};
ghost use Rattle.cvc_law.specs.Family.{interval_at};
ghost use Rattle.cvc_law.specs.Rules.{holds, leak_at, path_between, is_path, floats, supply_path, floating_gate};
ghost use Rattle.cvc_leak.specs.Leak.{leak_finding};
ghost use Rattle.cvc_leak.specs.Figures.{numbers_of, leak_numbers};

use crate::channel::{channel_of, leak_of};
use crate::figures::{Figures, Known};
use cvc_base::{DevId, Finding, Kind, Mv, Rule};
use cvc_law::{Circuit, Device, Family, Fixed, Interval};

/// The numbers of a leak at this threshold, where the device is a MOS that may leak.
fn leak(family: &Family, device: &Device, threshold: Mv) -> Option<Figures>
    requires { IsDevice (length family.now) device.now }
    ensures { numbers_of result ≡ leak_at device.now threshold
        (interval_at family.now (gate device.now)) (interval_at family.now (end_a device.now)) (interval_at family.now (end_b device.now)) }
{
    if !device.is_mos() {
        return None;
    }
    let reads = family.reads(device);
    leak_of(
        device.kind,
        threshold,
        &reads.g,
        &channel_of(&reads.a, &reads.b),
    )
}

/// The numbers of a leak at the corner that conducts least, where the model's corners differ.
fn sure_leak(family: &Family, device: &Device) -> Option<Figures>
    requires { IsDevice (length family.now) device.now }
    ensures { (c : Network) → numbers_of result ≡ holds c family.now device.now Rule.SureLeak }
{
    let volts = &device.volts;
    if volts.threshold.get() == volts.weak.get() {
        None
    } else {
        leak(family, device, volts.weak)
    }
}

/// Whether it is a resistor or an inductor.
fn is_path(kind: Kind) -> bool
    ensures { result ≡ is_path kind }
{
    matches!(kind, Kind::Resistor | Kind::Inductor)
}

/// The bounds of two declared nets, where they differ.
fn path_between(a: Option<Fixed>, b: Option<Fixed>) -> Option<Figures>
    ensures { numbers_of result ≡ path_between a b }
{
    let a = a?;
    let b = b?;
    if a.low.get() == b.low.get() && a.high.get() == b.high.get() {
        return None;
    }
    Some(Figures::of(
        &Known {
            low: a.low,
            high: a.high,
        },
        &Known {
            low: b.low,
            high: b.high,
        },
    ))
}

/// The declared bounds of both ends, where a resistor or an inductor joins two declared nets that differ.
fn supply_path(circuit: &Circuit, device: &Device) -> Option<Figures>
    requires { IsDevice (nets circuit.now) device.now }
    ensures { numbers_of result ≡ supply_path circuit.now device.now }
{
    if !is_path(device.kind) {
        return None;
    }
    path_between(circuit.fixed(device.end_a()), circuit.fixed(device.end_b()))
}

/// Whether neither bound is known.
fn floats(interval: &Interval) -> bool
    ensures { result ≡ floats interval.now }
{
    interval.low.is_none() && interval.high.is_none()
}

/// No numbers, where the device is a MOS whose gate has neither bound known.
fn floating_gate(family: &Family, device: &Device) -> Option<Figures>
    requires { IsDevice (length family.now) device.now }
    ensures { numbers_of result ≡ floating_gate device.now (interval_at family.now (gate device.now)) }
{
    if device.is_mos() && floats(&family.interval(device.gate())) {
        Some(Figures::none())
    } else {
        None
    }
}

/// What a rule finds at a device.
fn figures_at(circuit: &Circuit, family: &Family, device: &Device, rule: Rule) -> Option<Figures>
    requires family { length family.now ≡ nets circuit.now }
    requires sound { IsDevice (nets circuit.now) device.now }
    ensures { numbers_of result ≡ leak_numbers circuit.now family.now device.now rule }
{
    match rule {
        Rule::PossibleLeak => leak(family, device, device.volts.threshold),
        Rule::SupplyPath => supply_path(circuit, device),
        Rule::FloatingGate => floating_gate(family, device),
        Rule::SureLeak => sure_leak(family, device),
        Rule::OvervoltageGs
        | Rule::OvervoltageGd
        | Rule::OvervoltageDs
        | Rule::OvervoltageBs
        | Rule::OvervoltageBd
        | Rule::OvervoltageBg
        | Rule::ForwardBias
        | Rule::SourceBulk => None,
    }
}

/// The finding of one of the rules about leaks, supplies and gates at a device, in millivolts.
/// A leak tells the bounds of the gate and of the channel, a path between supplies the declared bounds of its two ends, a floating gate nothing.
/// `None` where the rule doesn't hold, and for every other rule.
pub fn leak_at(circuit: &Circuit, family: &Family, rule: Rule, d: DevId) -> Option<Finding>
    requires family { length family.now ≡ nets circuit.now }
    requires device { d.0 < devices circuit.now }
    ensures { result ≡ leak_finding circuit.now family.now rule d.0 }
{
    let figures = figures_at(circuit, family, circuit.device(d), rule)?;
    Some(Finding {
        rule,
        device: d,
        first: figures.first,
        second: figures.second,
        third: figures.third,
        fourth: figures.fourth,
    })
}
