//! A circuit judged: its least family, and all findings of the rules there, on one thread or by workers.
#![tactic(auto)]

mod all;
mod judged;

pub use all::{list_all, par_list_all};
pub use judged::{Judged, judge, judge_serial};
