//! A run's forms as the laws of splices have them: what a step writes is the layout of a node at its place (Go
//! specification, Operators; Statements).

mod laws;

pub use laws::{forms_are_spliced, steps_make_forms};
