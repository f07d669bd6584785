//! Worlds in which the same is found, whatever the order in which packages stand in them: the rules
//! of typing read them alike (Go specification, Packages; Type definitions; Declarations and scope;
//! Program initialization).

mod laws;

pub use laws::{orders_declare_the_same, typing_finds_the_same};
