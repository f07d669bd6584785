//! Which uses of members stand in a member of a group of constants in a function that a later member repeats.

mod laws;
mod uses;

pub use laws::repeated_uses_are_sites;
pub use uses::{FlaggedUse, repeated_uses};
