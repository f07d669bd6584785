//! A step over an alias of any type, where the use is a written type, puts the alias's text in a node
//! of its file; the packages whose names the text is written with are led to (Go specification, Alias
//! declarations; Types; Qualified identifiers; Source file organization). Definitions and laws alone,
//! without code.

mod laws;

pub use laws::{aliases_become_types, types_are_put, types_are_put_by_steps};
