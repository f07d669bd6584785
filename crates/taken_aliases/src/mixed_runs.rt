//! Runs over marked constants and aliases, from a module as it reads (Go specification, Constant
//! declarations; Alias declarations; Import declarations; Program initialization and execution).
//! Definitions and laws alone, without code.

mod laws;

pub use laws::{aliases_settle, runs_over_names_keep};
