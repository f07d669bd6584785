//! The words after the program's name.
#![tactic(auto)]

mod request;

pub use request::{Request, WordsFault, read_words};
