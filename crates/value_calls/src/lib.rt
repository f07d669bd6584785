//! Calls in the values of constants and package variables: they call no function, so a use of one stands in
//! a function (Go specification, Calls; Constant expressions; Package initialization). Definitions and laws
//! alone, without code.
#![tactic(auto)]

mod laws;

pub use laws::values_call_no_function;
