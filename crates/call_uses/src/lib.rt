//! The members of package blocks that calls in a declaration name.
#![tactic(auto)]

mod calls;
mod laws;

pub use calls::call_uses;
pub use laws::calls_lead_to_functions;
