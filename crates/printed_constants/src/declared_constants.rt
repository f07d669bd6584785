//! What marked constants are declared as, in programs of constants and of functions that print them: definitions and
//! laws alone, without code (Go specification, Constant declarations; Package block; Qualified identifiers).

mod laws;

pub use laws::{declared_constants_name_constants, printed_modules_keep};
