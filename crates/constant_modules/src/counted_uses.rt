//! Imports that typing counts as used, before a step over a constant and after it, in programs of any declarations:
//! definitions and laws alone, without code (Go specification, Import declarations; Qualified identifiers).

mod laws;

pub use laws::{declarations_stay_typed, imports_stay_used, used_imports_are_counted};
