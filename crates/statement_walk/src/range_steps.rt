//! What `range` gives of the answer for its operand: the values of each turn, where they are stored, and
//! the variables that it declares (Go specification, For statements with range clause).

mod assigned;
mod case_steps;
mod types;
mod variables;

pub use assigned::{assigns, ranges_over};
pub use case_steps::{CasesSeen, case_values};
pub use types::{RangeTypes, range_types};
pub use variables::range_variables;
