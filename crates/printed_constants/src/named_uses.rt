//! Uses of constants that are declared as names of constants, and these over steps: definitions and laws alone, without
//! code (Go specification, Constant declarations; Qualified identifiers).

mod laws;

pub use laws::constants_names_stand;
