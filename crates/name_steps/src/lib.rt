//! What operands are that have no operands as parts: names, qualified names, literals and types (Go
//! specification, Operands; Qualified identifiers; Predeclared identifiers; Iota).
#![tactic(auto)]

mod entities;
mod literals;
mod names;
mod predeclared;
mod types;

pub use literals::literal;
pub use names::{named, qualified};
pub use types::type_operand;
