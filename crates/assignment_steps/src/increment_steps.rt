//! What `++` and `--` give of the answer for their operand (Go specification, IncDec statements).

mod increments;

pub use increments::increment;
