//! Marked functions by numbers, and which of them lie on cycles: laws alone.
#![tactic(auto)]

mod laws;

pub use laws::recursive_functions_reach_themselves;
