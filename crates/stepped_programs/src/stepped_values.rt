//! What marked constants are declared as in a program that is kept, after a step too, and what searches are told of it:
//! definitions and laws alone, without code (Go specification, Constant declarations; Declarations and scope).

mod filled;
mod held_programs;
mod laws;
mod settled_flags;

pub use filled::{constants_stay_marked, values_are_told_after_steps};
pub use held_programs::programs_are_held;
pub use laws::marked_values_stay;
pub use settled_flags::settled_flags_stay;
