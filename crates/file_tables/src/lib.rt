//! What the names of a file mean: its names, the table of its scopes, and the packages that it imports.
#![tactic(auto)]

mod blocks;
mod dependency_order;
mod numbers;
mod replaced_files;
mod tables;

pub use blocks::Block;
pub use dependency_order::package_order;
pub use numbers::import_numbers;
pub use replaced_files::replace_file;
pub use tables::{FileTables, file_tables};
