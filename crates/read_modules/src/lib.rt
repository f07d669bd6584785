//! What modules that are read from files have read as: definitions and laws alone, without code.
#![tactic(auto)]

mod laws;

pub use laws::{modules_are_read, modules_may_be_loaded};
