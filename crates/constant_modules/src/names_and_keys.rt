//! Names that are told apart from keys of composite literals: definitions and laws alone, without code (Go specification,
//! Composite literals; Declarations and scope).

mod laws;

pub use laws::{functions_keep_keys, names_are_translated_alike, names_are_typed_alike};
