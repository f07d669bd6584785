//! Why files are no module, with the line and the column where that is seen.
#![tactic(auto)]

mod files;
mod laws;
mod names;
mod reasons;
mod texts;

pub use laws::{modules_have_no_refusal, one_refusal_at_most};
pub use reasons::{at_byte, first_refusal, of_whole};
