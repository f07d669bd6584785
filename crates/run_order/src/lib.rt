//! The order in which a run looks at uses: by their packages, their files and their ends (Go specification,
//! Packages; Source file organization). Definitions and laws alone, without code.
#![tactic(auto)]

mod laws;

pub use laws::{files_stay_in_the_order_of_paths, uses_are_in_order};
