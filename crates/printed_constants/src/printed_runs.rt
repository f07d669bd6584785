//! Runs over constants in modules of constants and of functions that print them: definitions and laws alone, without
//! code (Go specification, Constant declarations; Import declarations; Program initialization and execution).

mod laws;

pub use laws::printed_runs_keep;
