//! Power modes, as tests: that they are settled at once. There is no other code here.
#![tactic(auto)]

#[cfg(test)]
mod at_once;
