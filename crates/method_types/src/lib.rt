//! The methods that headers declare, by the numbers of their types, and which headers of methods are refused
//! (Go specification, Method declarations).
#![tactic(auto)]

mod headers;
mod laws;
mod method_names;
mod method_sets;

pub use headers::{MethodTypes, method_types};
pub use laws::refused_by_types;
pub use method_names::{MethodAt, attached_types, method_in};
pub use method_sets::declare_methods;
