//! Whether a file has variadic syntax, and what its tree has where it hasn't.
#![tactic(auto)]

mod laws;
mod words;

pub use laws::files_without_dots_hand_on_no_slice;
pub use words::has_dots;
