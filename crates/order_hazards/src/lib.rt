//! The hazards of order at a call: which arguments may take their parameters' places in the body,
//! as far as one argument, or a pair of them, tells.
//!
//! The Go Programming Language Specification, "Order of evaluation" and "Calls": the arguments of a
//! call are evaluated once each, in the order of the text, before the body. An argument that takes
//! its parameter's place is evaluated there instead, so it may move only where nobody can tell.
#![tactic(auto)]

mod facts;
mod hazards;

pub use facts::{Class, Item, ParamRow};
pub use hazards::{before, clash, solo};
