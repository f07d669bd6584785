//! Rules of operators over operands: comparisons, `&&` and `||`, which rule a binary operator
//! follows, and the type that a value settles at (Go specification, Operators; Constants).
#![tactic(auto)]

pub mod access_rules;
mod basics;
mod binary;
mod comparisons;
mod laws;
mod logical;
mod settling;
mod truths;

pub use basics::BasicTypes;
pub use binary::{binary_value, recover_comparison};
pub use comparisons::comparison;
pub use laws::{parts_are_types_of_values, tables_may_grow};
pub use logical::logic;
pub use settling::{default_type, settled};
