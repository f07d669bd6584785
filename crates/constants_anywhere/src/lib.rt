//! Steps over constants in declarations of every form: with literals of functions and composite types, and
//! with groups of constants that repeat an expression (Go specification, Constant declarations; Function
//! literals; Composite literals; Declarations and scope).
#![tactic(auto)]

mod laws;

pub use laws::{known_parts_mean_the_same, parts_are_known, uses_anywhere_mean_the_same};
