//! Which imports of a file a step over a use of a marked constant leaves unused.

mod names;
mod parts;
mod unused;

pub use parts::file_parts;
pub use unused::unused_imports;
