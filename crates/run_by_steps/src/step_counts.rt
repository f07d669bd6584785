//! How many steps a run has made, and how many of each origin.

mod counts;
mod laws;
mod origins;

pub use counts::StepCounts;
pub use laws::{counts_come, steps_are_counted};
pub use origins::OriginCounts;
