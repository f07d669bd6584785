//! What a step over a use of a marked constant makes of its file.

mod step;
mod used;

pub use step::{FileStep, step_file};
