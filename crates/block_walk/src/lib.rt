//! The walk over the statements of a block: whether they are typed and terminating, what they declare,
//! and which names they use (Go specification, Blocks; Statements; Terminating statements).
#![tactic(auto)]

mod arms;
mod blocks;
mod bodies;
mod ends;
mod found;
mod groups;
mod headers;
mod ifs;
mod literals;
mod loops;
mod plain;
mod ranges;
mod simple_uses;
mod switch_walk;
mod switches;

pub use blocks::{block_statements, statement, statements};
pub use bodies::function_body;
