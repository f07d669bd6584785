//! How deep the trees are that a file's tokens may begin.
#![tactic(auto)]

mod counts;
mod weight;

pub use counts::MAX_LIMIT;
pub use weight::weight_over;
