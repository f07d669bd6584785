//! What a step over a constant keeps of the cycles of marked functions (Go specification, Calls; Constant
//! declarations).

mod laws;

pub use laws::{constants_keep_cycles, names_name_no_function};
