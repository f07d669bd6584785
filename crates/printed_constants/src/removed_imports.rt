//! The imports that a step over a constant removes: definitions and laws alone, without code (Go specification, Import
//! declarations; Qualified identifiers).

mod laws;

pub use laws::printed_steps_remove_no_look_ups;
