//! The file of a use of a constant with the form in its place, in a program of any declarations: laws alone, without
//! code (Go specification, Composite literals; For statements; Qualified identifiers).

mod laws;

pub use laws::{first_uses_are_typed, steps_stand_between};
