//! What short declarations declare, by the answers for their values: names that are new in the block
//! are variables, and the others are assigned to (Go specification, Short variable declarations).

mod lists;
mod names;
mod short;

pub use lists::{DefinedList, all_defined};
pub use names::one_defined;
pub use short::short_declaration;
