//! Statements, blocks and the declarations that may be statements, read of the tokens of a file from
//! left to right.
#![tactic(auto)]

mod branches;
mod decls;
mod for_stmts;
mod parts;
mod simple_stmts;
mod stmts;

pub use decls::{const_decl, var_decl};
pub use stmts::block;
