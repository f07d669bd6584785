//! What names mean at the places of a program, and what a table of the scopes of a file answers: definitions and laws
//! alone, without code.

mod laws;

pub use laws::{blocks_are_local, files_have_their_names, places_mean_as_tables_say};
