//! Expressions, read of the tokens of a file from left to right.
//!
//! A function's literal holds statements, which are read by the crate above: each function here is
//! passed what reads them.
#![tactic(auto)]

mod basics;
mod bodies;
mod exprs;
mod operands;
mod postfixes;
mod prefixes;

pub use basics::{Operand, is_func_lit};
pub use bodies::{Place, Taken, block, statements};
pub use exprs::{binary_expr, expr_list, expression};
