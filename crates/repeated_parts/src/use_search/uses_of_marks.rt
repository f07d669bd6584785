//! The uses of marked constants in a file.

mod laws;
mod uses;

pub use laws::{marked_uses_are_sites, uses_are_placed};
pub use uses::{MarkedUse, marked_uses};
