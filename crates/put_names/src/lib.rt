//! Steps over constants and aliases put a node in the place of a node: definitions and laws alone, without code (Go
//! specification, Constant declarations; Alias declarations; Source file organization).
#![tactic(auto)]

mod laws;
mod put_types;
mod read_imports;
mod written_names;

pub use laws::{aliases_become_names, constants_become_names, names_are_put_by_steps};
pub use put_types::{aliases_become_type_names, type_names_are_put_by_steps};
pub use read_imports::imports_are_read_again;
pub use written_names::{names_are_identifiers, packages_stay_named};
