//! Dots in well-typed programs: what a selector stands on is no integer literal. Definitions and laws alone, without
//! code.

mod laws;

pub use laws::{files_without_spread_calls_are_undotted, well_typed_files_are_undotted};
