//! Where the expressions of a file stand: definitions and laws alone, without code (Go specification, Expressions;
//! Source file organization).
#![tactic(auto)]

mod laws;

pub use laws::spans_of_expressions_ascend;
