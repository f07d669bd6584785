//! What selectors of fields and methods give of the answers for their operands (Go specification,
//! Selectors; Method values).
#![tactic(auto)]

mod functions;
mod selections;
mod selectors;

pub use selectors::selector;
