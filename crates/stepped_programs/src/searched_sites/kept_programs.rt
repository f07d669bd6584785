//! Searches keep programs, and may be made in them: laws alone, without code.

mod laws;

pub use laws::{programs_are_open, searched_programs_stay};
