//! Worked cases of what is read, as tests: lines, cards, netlists and their flat lists, model files and power files. There is no other code here.
#![tactic(auto)]

#[cfg(test)]
mod cards;
#[cfg(test)]
mod flat_lists;
#[cfg(test)]
mod lexed;
#[cfg(test)]
mod lines;
#[cfg(test)]
mod model_files;
#[cfg(test)]
mod netlists;
#[cfg(test)]
mod power_files;
#[cfg(test)]
mod printed;
