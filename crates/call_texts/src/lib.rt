//! What the forms of calls take from the declarations of marked functions: laws alone.
#![tactic(auto)]

mod laws;

pub use laws::literals_take_all;
