//! Calls that become blocks, tails and literals in well-typed packages: what is called by a name alone in the
//! body is declared outside the function, and literals of functions have types (Go specification, Calls;
//! Declarations and scope; Function literals).

mod laws;

pub use laws::{callees_are_meant, typed_steps_keep_cycles};
