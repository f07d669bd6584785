//! Meaning in place: bodies in which a part stands for another, functions and packages with such bodies, and runs of
//! steps that show the same under free prices (Go specification, Statements; Program execution). Definitions and laws
//! alone, without code.
#![tactic(auto)]

mod laws;

pub use laws::{functions_stand, packages_show_the_same, runs_mean_the_same, statements_stand};
