//! Trees of Go source as text in one layout.
#![tactic(auto)]

mod decls;
mod exprs;
mod files;
mod funcs;
mod groups;
mod imports;
mod parens;
mod parts;
mod paths;
mod print;
mod rests;
mod starts;
mod stmts;
mod type_decls;
mod types;

pub use files::print_file;
pub use print::{print_expr, print_stmts, print_type};
