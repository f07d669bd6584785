//! The marks that hold for declarations whose full names begin with a prefix, and whether all marks are of constants.
#![tactic(auto)]

mod names;
mod narrow;

pub use narrow::{are_of_constants, narrowed};
