//! Examples of the Go specification, computed by the rules of typing: laws alone.

mod laws;

pub use laws::{constants_as_specified, types_as_specified};
