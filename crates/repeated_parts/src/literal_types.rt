//! What a table of the types that a module declares tells of composite literals: whether the keys of a literal name
//! fields.

mod known;
mod laws;
mod table;

pub(crate) use known::{KnownType, before_braces, in_elements, in_keys, names_fields};
pub use laws::tables_tell_fields;
pub use table::{LiteralType, LiteralTypes, NamedTypes, TypeScopes};
