//! The first free use of a marked constant in a program, in the order of the run, with what is learned of its files.

mod first;
mod laws;
mod step;
mod step_laws;

pub use first::{FirstUse, first_use};
pub use laws::{first_uses_are_steps, first_uses_keep_programs};
pub use step::step_use;
pub use step_laws::{found_uses_may_step, use_steps_go_on};
