//! The types of functions, by the numbers of the table of types (Go specification, Function types;
//! Function declarations).
#![tactic(auto)]

mod entities;
mod signatures;

pub use entities::function_entity;
pub use signatures::{func_type, params_meant};
