//! A call of a method that becomes a literal of it, whose first parameter is the receiver: from the
//! use and its mark to the meaning of both (Go specification, Method declarations; Selectors; Calls;
//! Function literals; Address operators).

mod laws;

pub use laws::{method_calls_mean_their_literals, methods_are_found};
