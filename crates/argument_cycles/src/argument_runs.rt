//! Runs over calls that put arguments in the places of parameters, in each form, and the cycles of marked
//! functions (Go specification, Calls; Blocks; Function literals; Import declarations).

mod laws;

pub use laws::argument_runs_keep_cycles;
