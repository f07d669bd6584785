//! What the plan of a module takes from a run, by the files that were read: their last texts, and the file in which a
//! limit is passed.

pub mod changed_files;
mod laws;
mod limits;
mod texts;

pub use laws::{last_texts_are_those_of_runs, limits_are_told_of_read_files};
pub use limits::file_limit;
pub(crate) use limits::read_file;
pub use texts::last_texts;
