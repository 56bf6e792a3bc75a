//! Findings of circuits whose settled families and findings are known from outside.
pub(crate) mod build;
mod cases;
mod parallel;
