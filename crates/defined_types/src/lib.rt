//! The defined types of a program, with the types that they are declared as (Go specification, Type
//! definitions).
#![tactic(auto)]

mod declared;

pub use declared::{DeclaredType, types_declared};
