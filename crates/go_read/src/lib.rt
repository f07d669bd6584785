//! How the tokens of a Go file are read as a tree: one way at most, and one wherever the grammar
//! has one.
//!
//! `specs/` holds what spells a tree, and the reader, as definitions without memory. The functions
//! here have empty bodies, and their contracts are the laws.
#![tactic(auto)]

mod completeness;
mod refusals;
mod soundness;
mod spellings;
mod uniqueness;

pub use completeness::{expressions_are_read, files_are_read, statements_are_read, types_are_read};
pub use refusals::{fronts_are_longest, refusals_have_one_place};
pub use soundness::{reading_is_its_step, reading_is_sound, reading_of_bare_trees_is_sound};
pub use spellings::{spans_aside, spellings_stand_in_front};
pub use uniqueness::{one_bare_tree, one_file, one_tree};
