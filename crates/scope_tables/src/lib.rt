//! A table of what each name means at each place of a file.
#![tactic(auto)]

mod blocks;
mod builds;
mod named;
mod rows;
mod table;

pub use blocks::BlockTable;
pub use builds::{scopes, scopes_in};
pub use table::Scopes;
