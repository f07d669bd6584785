//! The first use of a marked constant in a package that is free, file by file.

mod file_steps;
mod looks;
mod search;
mod searched_programs;

pub use file_steps::{FileStep, step_file};
pub use looks::{FileLook, ProgramSources, look_at_file};
pub use search::FoundInPackage;
pub use searched_programs::search_program;
