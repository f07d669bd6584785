//! What is told of kept uses, each place once: definitions and a law alone, without code (golang.org/x/tools, analyzer
//! inline, for what is reported).

mod laws;

pub use laws::kept_uses_are_told_once;
