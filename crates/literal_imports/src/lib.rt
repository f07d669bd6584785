//! The imports of a file in which a literal is put in the place of its call: by the run's own rule of the imports that
//! go, those that stay are used (Go specification, Import declarations; Qualified identifiers). Definitions and laws
//! alone, without code.
#![tactic(auto)]

mod laws;

pub use laws::{
    keeping_steps_are_literal_steps, keeping_steps_keep_programs, settling_steps_keep_programs,
};
