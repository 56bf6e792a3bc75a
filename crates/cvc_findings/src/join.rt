//! What is found in ranges of devices, joined into one list.
ghost use Rattle.std.specs.Prelude.{◌≡◌, ℕ, [], ◌++◌, List, Option, Some, slice_get, IfOk, OnOk};
ghost use Rattle.std.specs.Option.{unwrap_or};
ghost use Rattle.cvc_base.specs.declared.rule.Rule.{Rule};
ghost use Rattle.cvc_base.specs.declared.finding.Finding.{Finding};
ghost use Rattle.cvc_findings.specs.Listed.{found_below, listed};
ghost use Rattle.cvc_findings.specs.Parts.{AreParts};

use crate::RuleSet;
use crate::part::FoundByRule;
use cvc_base::{Finding, Findings, NoMemory};
use std::alloc::Global;

/// Puts all findings of a list last.
pub fn put_all(found: &[Finding], list: &mut Findings) -> Result<(), NoMemory>
    ensures { OnOk result (list.new ≡ list.old ++ found.now) }
{
    for finding in found {
        list.push(*finding)?;
    }
    Ok(())
}

/// What the rule at this place found.
fn found_at(lists: &FoundByRule, place: usize) -> &[Finding]
    ensures { result.now ≡ unwrap_or (slice_get lists.now place) [] }
{
    match lists.as_slice().get(place) {
        Some(list) => list.as_slice(),
        None => &[],
    }
}

/// Puts last what one rule, by its place, found in all ranges.
fn put_found(
    parts: &[Result<FoundByRule, NoMemory>],
    place: usize,
    all: &mut Findings,
) -> Result<(), NoMemory>
    ensures { (finds : Rule → ℕ → Option Finding) (rules : List Rule) (count : ℕ) (rule : Rule) → AreParts finds rules count parts.now
        → slice_get rules place ≡ Some rule → OnOk result (all.new ≡ all.old ++ found_below (finds rule) count) }
{
    for part in parts {
        match part {
            Ok(lists) => put_all(found_at(lists, place), all)?,
            Err(_) => return Err(NoMemory),
        }
    }
    Ok(())
}

/// All findings in one list, from what is found in each range.
pub(crate) fn joined<S: RuleSet>(
    alloc: Global,
    parts: &[Result<FoundByRule, NoMemory>],
) -> Result<Findings, NoMemory>
    ensures { (finds : Rule → ℕ → Option Finding) (count : ℕ) → AreParts finds S.rules count parts.now → IfOk result (λ all. all ≡ listed finds count S.rules) }
{
    let mut all = Findings::new(alloc);
    for place in 0..S::rules().len() {
        put_found(parts, place, &mut all)?;
    }
    Ok(all)
}
