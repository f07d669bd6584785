//! Which parts of a declaration stand in a member of a group of constants in a function that a later member repeats.
#![tactic(auto)]

mod decls;
mod exprs;
mod groups;
mod imports_unused;
mod laws;
pub mod literal_types;
mod stmts;
mod types;
pub mod use_search;
mod uses_repeated;

pub use decls::repeated_parts;
pub use imports_unused::{file_parts, unused_imports};
pub use laws::flags_are_those_of_places;
pub use uses_repeated::{FlaggedUse, repeated_uses, repeated_uses_are_sites};
