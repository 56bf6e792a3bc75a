//! The findings of a set of rules, listed by rule and then by device, on one thread or by many.
#![tactic(auto)]

mod join;
mod parallel;
mod part;
mod rule_set;
mod serial;

pub use join::put_all;
pub use parallel::par_list;
pub use rule_set::RuleSet;
pub use serial::list;
