//! What is found in a range of devices, a list for each rule.
ghost use Rattle.std.specs.Prelude.{◌≡◌, ◌≤◌, ◌+◌, ◌++◌, length, IfOk, OnOk};
ghost use Rattle.std.specs.Option.{option_to_list};
ghost use Rattle.cvc_law.specs.Network.{nets, devices};
ghost use Rattle.cvc_findings.specs.Listed.{IsFound};
ghost use Rattle.cvc_findings.specs.Parts.{boundary, IsPart};

use crate::RuleSet;
use cvc_base::{DevId, Finding, Findings, ItemList, NoMemory, Rule};
use cvc_law::{Circuit, Family};
use std::alloc::Global;

/// What each rule found, in the order of the rules.
pub(crate) type FoundByRule = ItemList<Findings>;

/// How many devices a range has, but for the last one.
pub(crate) const RANGE: u32 = 4096;

/// The number of the device at which a range begins, of this many devices.
fn boundary(count: u32, k: u32) -> u32
    requires few { count ≤ 500000 }
    requires range { k ≤ count + 1 }
    ensures { result ≡ boundary count k }
{
    (k * RANGE).min(count)
}

/// Puts a finding last, if there is one.
fn put(list: &mut Findings, found: Option<Finding>) -> Result<(), NoMemory>
    ensures { OnOk result (list.new ≡ list.old ++ option_to_list found) }
{
    match found {
        Some(finding) => list.push(finding),
        None => Ok(()),
    }
}

/// What a rule finds at the devices from one number up to another.
fn found_by<S: RuleSet>(
    alloc: Global,
    circuit: &Circuit,
    family: &Family,
    rule: Rule,
    start: u32,
    end: u32,
) -> Result<Findings, NoMemory>
    requires family { length family.now ≡ nets circuit.now }
    requires order { start ≤ end }
    requires devices { end ≤ devices circuit.now }
    ensures { IfOk result (IsFound (S.finds circuit.now family.now rule) start end) }
{
    let mut found = Findings::new(alloc);
    for d in start..end {
        put(&mut found, S::find(circuit, family, rule, DevId(d)))?;
    }
    Ok(found)
}

/// What each rule finds in a range, in the order of the rules.
pub(crate) fn part<S: RuleSet>(
    alloc: Global,
    circuit: &Circuit,
    family: &Family,
    k: u32,
) -> Result<FoundByRule, NoMemory>
    requires family { length family.now ≡ nets circuit.now }
    requires range { k ≤ devices circuit.now }
    ensures { IfOk result (IsPart (S.finds circuit.now family.now) S.rules (devices circuit.now) k) }
{
    let count = circuit.devices();
    let start = boundary(count, k);
    let end = boundary(count, k + 1);
    let mut lists = ItemList::new(alloc);
    for rule in S::rules() {
        lists.push(found_by::<S>(alloc, circuit, family, *rule, start, end)?)?;
    }
    Ok(lists)
}
