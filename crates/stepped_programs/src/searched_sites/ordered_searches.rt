//! What searches over the packages of a program find, one after another, is what a run takes next: definitions and laws
//! alone, without code.

mod laws;

pub use laws::{searches_find_steps, searches_settle_files};
