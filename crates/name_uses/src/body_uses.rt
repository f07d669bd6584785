//! The names that expressions and the statements of a block use (Go specification, Declarations and scope;
//! Composite literals; Assignment statements).

mod exprs;
mod stmts;

pub use exprs::exprs_uses;
pub use stmts::stmts_uses;
