//! Which types are comparable, and in which each map has a comparable key type (Go specification,
//! Comparison operators; Map types).
#![tactic(auto)]

mod flags;
mod grown;
mod keys;
mod order;

pub use flags::comparable_types;
pub use grown::TypeFlags;
pub use keys::keyed_types;
