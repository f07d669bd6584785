//! What calls give of the answers for what is called and for its arguments: calls of functions and
//! methods, conversions, and calls of predeclared functions (Go specification, Calls; Conversions;
//! Built-in functions).
#![tactic(auto)]

mod calls;
mod conversions;
mod functions;

pub use calls::call;
