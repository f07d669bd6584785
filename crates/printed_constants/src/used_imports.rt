//! Imports whose names are looked up in their files are used, and stay so over steps: definitions and laws alone,
//! without code (Go specification, Import declarations; Declarations and scope).

mod laws;

pub use laws::printed_imports_are_used;
