//! Package blocks in which constants and variables are declared, none of whose names means a constant that
//! isn't in the table (Go specification, Blocks; Declarations and scope).

mod copies;
mod values;

pub use copies::copied_blocks;
pub use values::{set_value, set_values};
