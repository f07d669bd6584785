//! Defined types get their underlying types (Go specification, Type definitions; Underlying types).
#![tactic(auto)]

mod chains;
mod define;
mod steps;

pub use chains::next_numbers;
pub use define::define_types;
pub use steps::number_at;
