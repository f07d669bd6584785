//! The ranges of a file as read that the steps of a run change, with how many bytes stand there now, and where what
//! stands at a byte comes from.
#![tactic(auto)]

mod joining;
mod laws;
mod ranges;

pub use joining::join;
pub use laws::ranges_follow_edits;
pub use ranges::ChangedRange;
