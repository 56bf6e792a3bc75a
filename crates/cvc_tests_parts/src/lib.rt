//! Worked cases of the parts that runs are made of, as tests: plain types, words, the outside, generated texts, the machine and the shared field.
//! There is no other code here.
#![tactic(auto)]

#[cfg(test)]
mod fields;
#[cfg(test)]
mod generated;
#[cfg(test)]
mod machine;
#[cfg(test)]
mod outside;
#[cfg(test)]
mod plain_types;
#[cfg(test)]
mod threads;
#[cfg(test)]
mod words;
