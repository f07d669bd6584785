//! What the names of constants and variables mean in the package blocks of a program, and which of their headers
//! are refused (Go specification, Constant declarations; Variable declarations; Declarations and scope).

mod declared;
mod order;
mod passes;
mod refusing;

pub use declared::{DeclaredValues, declare_values};
