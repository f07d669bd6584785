//! The files of a module, read as its packages, or the first reason why they aren't.
#![tactic(auto)]

mod checks;
mod reading;
mod scanned;
mod trees;

pub use reading::read_module_files;
