//! The headers of functions: what the names of functions mean in the package blocks of a program, and which
//! functions are refused (Go specification, Function declarations; Declarations and scope; Program
//! execution).

mod functions;
mod headers;
mod laws;
mod names;

pub use functions::declared_function;
pub use headers::declare_functions;
pub use laws::{refused_functions_are_wrong, types_stay};
pub use names::{has_distinct_names, has_distinct_names_with};
