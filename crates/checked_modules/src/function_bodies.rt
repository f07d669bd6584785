//! Whether the bodies of functions and methods are typed (Go specification, Function declarations; Method
//! declarations; Blocks).

mod bodies;
mod laws;
mod receivers;
mod starts;

pub use bodies::body_is_typed;
pub use laws::{read_bodies_are_walked, tables_find_the_same, tables_tell_of_functions};
