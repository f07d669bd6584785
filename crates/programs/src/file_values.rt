//! What the constants of the files of a program are declared as, file by file.

mod files;
mod packages;

pub use files::fill_file;
pub use packages::{fill_source, program_values};
