//! A form that is put into a text reads as the form put into its tree: definitions and laws alone, without code.
//!
//! `specs/` says how a text is parted at a span, what a place in a tree is, and what is written there. The functions
//! here have empty bodies, and their contracts are the laws.
#![tactic(auto)]

mod edits;
mod forms;
pub mod import_splices;
mod imports;
pub mod run_laws;
mod texts;
mod trees;

pub use edits::{edited_texts_are_read, edits_are_made_in_turn, lines_part_texts};
pub use forms::{dots_stand_apart, forms_are_read_in_place};
pub use imports::{imports_are_changed, imports_are_written};
pub use texts::{spans_are_replaced, tokens_stand_in_parts};
pub use trees::{nodes_are_replaced, spans_are_found};
