//! What is written for a tree spells the tree: the law of the layout.
//!
//! `specs/` says what the tokens and the pieces of a layout are, which trees are well formed, and what the laws state.
//! The functions here have empty bodies, and their contracts are the laws.

mod layouts;
mod well_formed;
mod written;

pub use layouts::{layouts_see_no_spans, layouts_spell_their_trees};
pub use well_formed::spelled_trees_are_formed;
pub use written::{formed_trees_are_written, spelled_trees_are_written};
