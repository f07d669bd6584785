//! Where the tokens, the comments and the imports of a text stand that reads as a file: definitions and laws alone,
//! without code.

mod laws;

pub use laws::imports_of_read_files_lie;
