//! Steps in each form, and the cycles of marked functions: a step in the body of a function keeps what the
//! packages declare, and a body in which a form is put calls what it called, but that what was used gives
//! way (Go specification, Calls; Function declarations; Blocks; Return statements).

mod laws;

pub use laws::{bodies_give_way, body_steps_keep_cycles, functions_call_through, runs_keep_cycles};
