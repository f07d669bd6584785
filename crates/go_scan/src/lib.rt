//! From the text of a file of Go source to its tokens.
#![tactic(auto)]

mod automaton;
mod characters;
mod lexemes;
mod lists;
mod pieces;
mod scanner;
mod support;

pub use scanner::{ScanError, Tokens, scan};
pub use support::unsupported;
