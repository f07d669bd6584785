//! How deep syntax trees of Go source are nested.
#![tactic(auto)]

pub mod depth_exprs;
mod depth_stmts;
mod depth_types;

pub use depth_exprs::depth;
