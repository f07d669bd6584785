//! What the names of types mean in the package blocks of a program, as numbers of the table of types
//! (Go specification, Type declarations; Declarations and scope).
#![tactic(auto)]

mod aliases;
mod headers;
mod specs;

pub use aliases::find_aliases;
pub use headers::TypeHeader;
pub use specs::named_type;
