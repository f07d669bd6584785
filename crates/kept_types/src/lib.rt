//! A step of a run over a constant, and a run of such steps, keeps a table of declared types right: no type expression
//! holds an expression, so such steps declare the same types (Go specification, Type declarations; Constant
//! declarations). Definitions and laws alone, without code.
#![tactic(auto)]

mod laws;

pub use laws::typed_steps_keep_tables;
