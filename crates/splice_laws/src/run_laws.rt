//! Laws of runs whose programs are read from their texts: definitions and laws alone, without code.

mod laws;

pub use laws::{edits_of_read_files_stand_apart, read_programs_stay_read, runs_keep_files};
