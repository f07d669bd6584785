//! What operators give of the answers for their operands: unary and binary operators, and `*` (Go
//! specification, Operators; Address operators).

mod binaries;
mod stars;
mod unaries;

pub use binaries::binary;
pub use stars::star;
pub use unaries::unary;
