//! What is written for a function's body at another place of the program does there what the body
//! does, so a call means the called literal of what is written for its function, wherever it
//! stands (Go specification, Calls; Function literals; Defer statements).
#![tactic(auto)]

mod form_in_place;
mod laws;

pub use form_in_place::{call_is_the_operand_of_its_literal, written_body_is_typed_alike};
pub use laws::{
    call_means_its_written_literal, method_call_means_its_written_literal,
    written_body_does_the_same,
};
