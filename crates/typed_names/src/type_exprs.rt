//! What types in the source mean, as numbers of the table of types (Go specification, Types; Qualified
//! identifiers; Struct types; Map types).

mod exprs;
mod fields;
mod forms;
mod meant;
mod named;
mod rows;

pub use exprs::resolved;
pub use meant::type_meant;
