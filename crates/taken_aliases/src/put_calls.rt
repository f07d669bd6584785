//! A step over an alias of any type, where the use is an expression, as what is called in a conversion,
//! puts the alias's text in a node of its file, in parentheses where the grammar asks for them (Go
//! specification, Alias declarations; Conversions; Calls; Source file organization). Definitions and
//! laws alone, without code.

mod laws;

pub use laws::{
    aliases_become_type_expressions, type_expressions_are_put, type_expressions_are_put_by_steps,
};
