//! What `op=`, `++` and `--` give of the answers for their operands (Go specification, Assignment
//! statements; IncDec statements).

mod lists;
mod updates;

pub use lists::update;
pub use updates::is_updated;
