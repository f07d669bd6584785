//! Tests of the calls of lower crates that no program makes: a crate with tests of its own is proved twice.
#![tactic(auto)]

#[cfg(test)]
mod choices;
#[cfg(test)]
mod edits;
#[cfg(test)]
mod hazards;
#[cfg(test)]
mod io;
