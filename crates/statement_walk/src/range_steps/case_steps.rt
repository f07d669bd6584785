//! What the cases of a switch come to: each value may be compared with the tag, no constant stands twice,
//! and at most one case is the default (Go specification, Expression switches; Terminating statements).

mod constants;
mod seen;
mod values;

pub use seen::CasesSeen;
pub use values::case_values;
