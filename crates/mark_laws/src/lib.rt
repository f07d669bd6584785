//! Laws of the marks of files that tokens spell.
#![tactic(auto)]

mod laws;

pub use laws::marks_stand_by_place;
