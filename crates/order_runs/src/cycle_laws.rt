//! What a step of a run keeps of the calls of marked functions, by which they lie on cycles (Go
//! specification, Calls; Selectors).

mod constant_cycles;
mod laws;

pub use constant_cycles::{constants_keep_cycles, names_name_no_function};
pub use laws::{names_call_alike, steps_give_way, walks_keep_calls};
