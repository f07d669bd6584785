//! What is asked of a whole body, by the answer for its statements (Go specification, Terminating
//! statements; Labeled statements).

mod bodies;

pub use bodies::is_body;
