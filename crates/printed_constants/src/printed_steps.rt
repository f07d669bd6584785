//! Programs of constants and of functions that print them, step by step: definitions and laws alone, without code (Go
//! specification, Constant declarations; Import declarations).

mod laws;

pub use laws::printed_steps_keep;
