//! Where a use of a constant comes from, by where it stands: definitions and laws alone, without code.

mod laws;

pub use laws::origins_are_told;
