//! The table of the types that the packages of a module declare, as far as composite literals go by them, made of what
//! the checker has collected of them (Go specification, Type declarations; Composite literals).
#![tactic(auto)]

mod numbers;
mod rows;
mod tables;

pub use tables::literal_types;
