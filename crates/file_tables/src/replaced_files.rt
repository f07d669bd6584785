//! Packages with another tree for one of their files.

mod replaced;

pub use replaced::replace_file;
