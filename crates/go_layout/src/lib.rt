//! The layout of Go trees: which text is written for a tree, and that it spells the tree.
#![tactic(auto)]

pub mod layout_laws;
