//! Worked circuits, as tests: what devices conduct, how families settle on one thread and by workers, what the rules find, and how that is told.
//! There is no other code here.
#![tactic(auto)]

#[cfg(test)]
mod conduction;
#[cfg(test)]
mod crew;
#[cfg(test)]
mod derivations;
#[cfg(test)]
mod reports;
#[cfg(test)]
mod rules;
#[cfg(test)]
mod settling;
#[cfg(test)]
mod whole_runs;
