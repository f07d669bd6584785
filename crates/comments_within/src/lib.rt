//! Comments that lie in a span of a text.
#![tactic(auto)]

mod within;

pub use within::comment_lies_in;
