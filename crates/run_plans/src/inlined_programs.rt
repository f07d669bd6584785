//! The run over a program: its steps, one use of a marked constant after the other, until none is free.

mod faults;
mod laws;
mod logged;
mod runs;
mod steps;
mod taken;

pub use faults::{PassedIn, StepFault};
pub use laws::{
    loaded_programs_begin_runs, steps_are_logged, steps_may_be_taken, stopped_runs_are_too_large,
    taken_steps_come_next,
};
pub use runs::inline_all;
pub use steps::step;
