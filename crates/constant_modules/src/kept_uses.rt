//! Imports that are used after a step over a constant, in a file of any declarations: definitions and laws alone,
//! without code (Go specification, Import declarations; Qualified identifiers).

mod laws;

pub use laws::{added_imports_are_used, imports_read_again_are_used};
