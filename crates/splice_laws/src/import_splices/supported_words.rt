//! The words of a file that tokens spell: definitions and laws alone, without code.

mod laws;

pub use laws::{constraints_stay, spelled_words_are_supported};
