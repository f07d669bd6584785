//! The tables of the checker, and that what the rules ask of them follows from one fact, which each
//! step keeps (Go specification, Types; Constants; Comparison operators).

mod laws;
mod steps;
mod tables;

pub use laws::premises_follow;
pub use steps::{address, binary, meant};
pub use tables::Tables;
