//! The headers of methods: the defined type that a receiver names, and the type of a method (Go
//! specification, Method declarations).
#![tactic(auto)]

mod laws;
mod methods;
mod receivers;

pub use laws::{declared_methods_are_found, methods_by_parts, methods_by_types};
pub use methods::method_type;
pub use receivers::receiver_type;
