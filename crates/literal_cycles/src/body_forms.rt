//! Calls that become the body of the function that they name: an expression, an assignment to `_`, a block
//! or a tail calls what the function leads to (Go specification, Calls; Return statements; Blocks; Function
//! declarations).

mod laws;

pub use laws::{
    arguments_come_through, bodies_call_through, bound_blocks_call_through,
    steps_to_bodies_keep_cycles,
};
