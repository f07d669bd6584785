//! Packages of the same declarations under other imports of their files, where keys of composite literals are told apart
//! from names: definitions and laws alone, without code (Go specification, Import declarations; Composite literals;
//! Declarations and scope).

mod laws;

pub use laws::{keyed_imports_mean_the_same, keyed_marks_stay_named, steps_keep_uses};
