//! That calls see arguments alike whose untyped shifts have the same bounds: calls of functions,
//! conversions, and calls of predeclared functions. Laws alone (Go specification, Calls; Conversions;
//! Built-in functions).
#![tactic(auto)]

mod laws;

pub use laws::calls_see_alike;
