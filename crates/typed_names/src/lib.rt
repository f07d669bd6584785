//! What names mean to the rules of typing, by the numbers of types and constants: package blocks, file
//! blocks, and the names that are declared around a place (Go specification, Blocks; Declarations and
//! scope).
#![tactic(auto)]

mod blocks;
mod entities;
mod locals;
mod scopes;
pub mod type_exprs;

pub use blocks::{Block, Blocks};
pub use entities::Entity;
pub use locals::Locals;
pub use scopes::Scope;
