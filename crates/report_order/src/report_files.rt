//! The report of a run, file by file: definitions and laws alone, without code.

mod laws;

pub use laws::{reports_are_by_file, steps_lie_in_files};
