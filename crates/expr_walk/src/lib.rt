//! The walk over expressions, which calls the rule of each construct on the answers for its parts (Go
//! specification, Expressions).
#![tactic(auto)]

mod bodiless;
mod exprs;
mod walk_arms;

pub use bodiless::{all_exprs, expr};
pub use exprs::{all_exprs as all_exprs_at, expr as expr_at};
pub use walk_arms::{function_operand, package_before, signature};
