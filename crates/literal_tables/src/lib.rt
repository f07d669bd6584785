//! Tables of declared types that are right: they have the types that the packages of a program declare, as far as
//! composite literals go by them (Go specification, Type declarations; Composite literals). Definitions and laws alone,
//! without code.
#![tactic(auto)]

mod laws;

pub use laws::right_tables_stay;
