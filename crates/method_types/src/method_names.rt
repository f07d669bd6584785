//! On which defined types headers declare methods, and whether the names of methods are new there (Go
//! specification, Method declarations).

mod headers;
mod tables;

pub use headers::{MethodAt, attached_types, method_in};
