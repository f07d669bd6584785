//! What the constants and the variables of one header are declared as, one entity for each name, or one name by
//! its own value (Go specification, Constant declarations; Iota; Variable declarations).

mod entities;
mod lists;
mod singles;
mod specs;

pub use entities::ValueKind;
pub use lists::EntityList;
pub use singles::{constant_at, variable_at};
pub use specs::{no_constants, spec_constants, variables_at};
