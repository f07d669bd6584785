//! A run that is made step by step, from the files that are read again: definitions and laws alone, without code.
#![tactic(auto)]

mod laws;
mod next_programs;
mod run_progress;
mod spelled_names;
pub mod step_counts;
mod written_imports;

pub use laws::{run_ends, run_goes_on};
pub use next_programs::{
    read_files_are_next, runs_are_made_by_steps, step_texts_are_read, steps_keep_words,
};
pub use run_progress::{paths_stay_apart, progress_follows_steps};
pub use spelled_names::spelled_names_are_identifiers;
pub use written_imports::{imports_of_steps_are_written, packages_are_named};
