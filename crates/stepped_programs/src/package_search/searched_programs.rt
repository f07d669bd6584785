//! The first free use in a package of a program, with what is learned of its files.

mod files;
mod search;

pub use search::search_program;
