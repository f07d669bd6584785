//! The chosen set of a call: the parameters whose arguments take their places in the body. It is the
//! greatest set of parameters that is safe to move together; all other parameters stay bound.
//!
//! The Go Programming Language Specification, "Order of evaluation", "Calls", "Declarations and scope".
#![tactic(auto)]

mod choice;
mod chosen;
mod no_memory;
mod table;

pub use choice::choose;
pub use chosen::Chosen;
pub use no_memory::NoMemory;
pub use table::{CallTable, ItemList, PairList, RowList};
