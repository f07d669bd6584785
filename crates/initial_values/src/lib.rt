//! Expressions in which no function literal stands, and initialisers of package variables (Go
//! specification, Function literals; Constant expressions; Package initialization).
#![tactic(auto)]

mod bodiless;
mod constant;
mod initial;
mod makers;
mod types;
mod value_blocks;
mod value_entities;
mod value_places;

pub use bodiless::{all_bodiless, is_bodiless};
pub use initial::{all_initial, is_initial};
pub use value_blocks::{copied_blocks, set_value, set_values};
pub use value_entities::{
    EntityList, ValueKind, constant_at, no_constants, spec_constants, variable_at, variables_at,
};
pub use value_places::{names_of_one, value_names, value_place};
