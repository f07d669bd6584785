//! New names for the packages that a form names: a name that is new is found wherever a candidate is new
//! (Go specification, Identifiers; Import declarations). Definitions and laws alone, without code.
#![tactic(auto)]

mod laws;

pub use laws::{new_names_are_found, packages_get_needed_names};
