//! Uses of marked constants among constants and functions that print them: laws alone, without code (Go specification,
//! Constant declarations; Operands).

mod laws;

pub use laws::{printed_steps_are_over, printed_uses_are_expressions, printed_uses_stand};
