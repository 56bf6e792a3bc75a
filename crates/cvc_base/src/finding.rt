//! What a rule found.

use crate::{DevId, ItemList, Rule};

/// A rule that holds of a device, with the numbers of its report line in millivolts. A number that the rule doesn't name is 0.
#[derive(Clone, Copy, Debug, PartialEq, Eq)]
pub struct Finding {
    pub rule: Rule,
    pub device: DevId,
    pub first: i64,
    pub second: i64,
    pub third: i64,
    pub fourth: i64,
}

/// A list of findings.
pub type Findings = ItemList<Finding>;
