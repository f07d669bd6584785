//! The values on the right of declarations and assignments, by the answers for the expressions there
//! (Go specification, Assignment statements; Variable declarations).

mod right;

pub use right::right_values;
