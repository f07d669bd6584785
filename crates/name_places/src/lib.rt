//! Where the names of a declaration stand: definitions and laws alone, without code (Go specification, Qualified
//! identifiers; Selectors; Types; Composite literals).
#![tactic(auto)]

mod laws;

pub use laws::names_stand_apart;
