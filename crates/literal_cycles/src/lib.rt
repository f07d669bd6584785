//! A call that becomes a literal of its function, and the cycles of marked functions: in well-typed
//! packages the literal calls what the function leads to and what the call's arguments do, so a step over
//! the call keeps which marked functions lie on a cycle; so it is of calls that become the body of their
//! function (Go specification, Calls; Function literals; Declarations and scope).
#![tactic(auto)]

pub mod body_forms;
pub mod form_cycles;
mod laws;

pub use laws::{
    literal_runs_keep_cycles, literal_steps_keep_cycles, literals_call_through,
    uses_stand_in_functions,
};
