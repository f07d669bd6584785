//! What a table tells of marked constants that are declared as names: definitions and a law alone, without code (Go
//! specification, Constant declarations; Qualified identifiers).

mod laws;

pub use laws::values_are_told;
