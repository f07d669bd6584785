//! Programs all of whose marks are of constants, from a module as it reads to the end of a run: definitions and laws
//! alone, without code (Go specification, Constant declarations; Import declarations; Packages).

mod laws;

pub use laws::{
    constant_programs_are_read, constant_runs_inline, constant_steps_stay, constants_are_untyped,
    first_uses_are_of_constants,
};
