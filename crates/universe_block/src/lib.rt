//! What each predeclared name means (Go specification, Predeclared identifiers).
#![tactic(auto)]

mod block;

pub use block::{Builtin, PredeclaredEntity, predeclared};
