//! How many identifiers a file of constants and of functions that print them has, and how many names a step avoids:
//! definitions and laws alone, without code (Go specification, Identifiers; Tokens; Import declarations).

mod laws;

pub use laws::{printed_files_have_few_names, printed_steps_avoid_few_names};
