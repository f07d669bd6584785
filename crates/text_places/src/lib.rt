//! Lines and columns of a text.
#![tactic(auto)]

pub mod lines;

pub use lines::place;
