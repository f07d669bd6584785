//! What keeps a call of a marked function as it is.
#![tactic(auto)]

mod obstacles;
mod uses;

pub use obstacles::obstacle_of_call;
pub use uses::CallUse;
