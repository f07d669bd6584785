//! The arms of the walk over expressions: what is known of the parts, in the tables in which they were
//! walked, and what a rule gives, make up what is known of the whole; lists of expressions and of
//! elements are walked one by one (Go specification, Expressions).

mod literals;
mod qualifiers;

pub(crate) use literals::function_literal;
pub use literals::{function_operand, signature};
pub use qualifiers::package_before;
