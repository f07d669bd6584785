//! Uses of constants that steps find stand once in their declarations: definitions and a law alone, without code.

mod import_uses;
mod laws;
mod lone_uses;
mod told_steps;
mod use_places;

pub use import_uses::steps_swap_uses;
pub use laws::{constant_steps_are_told, constant_uses_stand_once};
pub use lone_uses::constant_uses_stand_alone;
pub use told_steps::{first_uses_are_told, steps_may_be_edited};
pub use use_places::{slots_take_names, uses_lie_behind_imports};
