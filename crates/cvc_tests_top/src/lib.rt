//! Whole runs, as tests: files that are loaded, and words and files through `top`, from small reports to netlists that are made to hurt.
//! There is no other code here.
#![tactic(auto)]

#[cfg(test)]
mod certificates;
#[cfg(test)]
mod edit_lists;
#[cfg(test)]
mod hostile;
#[cfg(test)]
mod limits;
#[cfg(test)]
mod loads;
#[cfg(test)]
mod made;
#[cfg(test)]
mod modes;
#[cfg(test)]
mod opened;
#[cfg(test)]
mod outside;
#[cfg(test)]
mod refusals;
#[cfg(test)]
mod reports;
#[cfg(test)]
mod runs;
#[cfg(test)]
mod sessions;
