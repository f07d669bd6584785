//! The files of a module as a run leaves them: they read as a module again. Definitions and laws alone, without code
//! (Go specification, Source file organization; Packages; Import declarations).

pub mod inlined_modules;
mod laws;

pub use laws::{added_imports_are_allowed, runs_leave_modules, steps_leave_modules};
