//! Expected bounds, as tests: files of rows and their refusals, and the run of `expect` through `top`. There is no other code here.
#![tactic(auto)]

#[cfg(test)]
mod files;
#[cfg(test)]
mod runs;
