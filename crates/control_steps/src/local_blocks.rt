//! The blocks of a function: what the innermost block around a place declares, and names that are
//! declared in it and go with it (Go specification, Blocks; Declarations and scope).

mod blocks;
mod laws;

pub use blocks::LocalBlock;
pub use laws::blocks_are_seen_alike;
