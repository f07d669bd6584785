//! Which types are identical, assignable and convertible, over the table of types and what defined
//! types are defined as (Go specification, Type identity; Assignability; Conversions).

mod env;
mod kinds;
mod methods;
mod relations;

pub use env::Env;
pub use methods::{FuncType, Method, MethodSet};
pub use relations::{assignable, convertible, identical};
