//! Whether two tokens that stand side by side are read as these two.
#![tactic(auto)]

mod joints;

pub use joints::{needs_blank, run_together, spelling_before};
