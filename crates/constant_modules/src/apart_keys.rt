//! Keys of composite literals that are predeclared as values, and that no import of their file has for its name, in
//! programs of any declarations: definitions and laws alone, without code (Go specification, Composite literals; Import
//! declarations; Predeclared identifiers).

mod laws;

pub use laws::{keys_apart_are_found, steps_keep_keys_apart, steps_put_names};
