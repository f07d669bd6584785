//! The names of packages before the names of a marked declaration, where it is written at a use.
#![tactic(auto)]

mod laws;
mod names;

pub use laws::{aliases_are_told, functions_are_told};
pub use names::decl_qualifiers;
