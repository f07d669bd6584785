//! What the literal calls that stands for a call of a function: what the function's body calls, and what
//! the call did besides (Go specification, Calls; Function literals).

mod laws;

pub use laws::literals_call_through;
