//! The file that a step of a run leaves: its text, and what that reads as, or the limit that the step passes.
#![tactic(auto)]

mod file;
mod limits;

pub use file::{FileFault, NewFile};
pub use limits::{Passed, Progress};
