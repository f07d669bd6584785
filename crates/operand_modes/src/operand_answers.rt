//! What expressions are and where they stand, as answers that are handed on while types and constants
//! are added to the tables (Go specification, Expressions; Address operators).

mod access_steps;
mod interned;
mod lists;
mod located;
mod operator_steps;

pub use access_steps::{bound, index, slice};
pub use interned::added;
pub use lists::OperandList;
pub use located::{Located, elsewhere};
pub use operator_steps::{binary, star, unary};
