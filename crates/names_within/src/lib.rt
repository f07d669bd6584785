//! Names that stand in a part of a program: which are free there, which are declared, and which are new to a file.
#![tactic(auto)]

mod calls;
mod exprs;
mod files;
mod new_names;
mod stmts;
mod types;

pub use calls::{binders, free_names, local_scopes};
pub use new_names::fresh;
