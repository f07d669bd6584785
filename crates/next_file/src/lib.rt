//! The file of a step: the text that its edits make, and what that reads as, or the limit that the step passes.
#![tactic(auto)]

mod file;
mod limits;

pub use file::new_file;
