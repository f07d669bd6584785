//! The imports that a step removes, in a file of any declarations: definitions and laws alone, without code (Go
//! specification, Import declarations; Declarations and scope; Composite literals).

mod laws;

pub use laws::{steps_remove_no_look_ups, typed_imports_are_looked_up};
