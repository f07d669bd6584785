//! The nodes of files at the places of run_rules' walk, and names in the place of names: definitions and laws alone,
//! without code (Go specification, Source file organization).
#![tactic(auto)]

mod forms_apart;
mod laws;
mod names_apart;
mod type_nodes;

pub use forms_apart::{forms_stand_apart, identifiers_stand_apart, types_stand_apart};
pub use laws::{names_are_put, parts_are_nodes};
pub use names_apart::calls_stand_before_no_dot;
pub use type_nodes::type_names_are_put;
