//! Edits of a text that never overlap, and the text with all of them made: each span is replaced,
//! and every other byte stays.
#![tactic(auto)]

pub mod edit;
pub mod edits;
pub mod laws;

pub use edit::{AddFault, Edit};
pub use edits::{Edits, apply};
