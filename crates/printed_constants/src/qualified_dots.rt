//! What stands before dots among constants and functions that print them: definitions and laws alone, without code (Go
//! specification, Selectors; Qualified identifiers).

mod laws;

pub use laws::printed_dots_are_qualified;
