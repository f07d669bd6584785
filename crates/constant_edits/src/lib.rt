//! The edits of a step over a use of a marked constant.
#![tactic(auto)]

mod edits;

pub use edits::{form_edit, step_edits};
