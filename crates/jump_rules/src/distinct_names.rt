//! Names of which each stands once: labels of a body, and the names that a declaration declares (Go
//! specification, Labeled statements; Declarations and scope).

mod names;

pub use names::{are_distinct, stand_once};
