//! What indices and slices give of the answers for their operands (Go specification, Index
//! expressions; Slice expressions).

mod indices;
mod slices;

pub use indices::index;
pub use slices::{bound, slice};
