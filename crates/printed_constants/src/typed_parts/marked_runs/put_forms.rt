//! The form of the next use of a run, of a constant: it is laid out in the place of a node of its file, and the program
//! with the file that is read from the new text is the next one. Definitions and laws alone, without code (Go
//! specification, Constant declarations; Source file organization).

mod laws;

pub use laws::{constants_come_next, forms_of_constants_are_put, values_are_names};
