//! Files of constants, and of functions that print them.
#![tactic(auto)]

mod decls;
mod files;
mod operands;

pub use files::prints_only;
