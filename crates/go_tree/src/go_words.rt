//! The words of Go: what the tokens and comments of a text are, and which terminal of the grammar
//! each token is.

mod operators;
mod terminals;

pub use operators::{binary_spelling, level_of, unary_spelling};
pub use terminals::{Terminal, ends_line, is_foreign, keyword, terminal_of};
