//! Uses of aliases as the walk over places finds them: names of types that declarations write, and
//! names that are expressions (Go specification, Alias declarations; Types; Conversions). Definitions
//! and laws alone, without code.

mod laws;

pub use laws::{uses_are_written, written_uses_are_over};
