//! A step of a run over a constant, from the use and its mark to the packages that mean the same: what a name means
//! among packages is what the rules of typing say that it means (Go specification, Constant declarations; Declarations
//! and scope). Its members: `written_literal`, the literal that stands for a call; `form_imports`, the imports that a form
//! needs; `place_meanings`, what names mean at a place. Definitions and laws alone, without code.
#![tactic(auto)]

pub mod form_imports;
mod laws;
pub mod place_meanings;
mod qualified_steps;
mod step_laws;
pub mod written_literal;

pub use laws::{constant_steps_mean_the_same, declarations_are_first};
pub use qualified_steps::{named_constants_mean_the_same, named_members_are_meant};
pub use step_laws::{
    answered_places_stand, step_over_a_constant_means_the_same, uses_of_constants_stand,
    walks_replace_in_place,
};
