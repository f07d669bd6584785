//! What stands around a place inside a loop, a switch and a labelled statement (Go specification, Labeled
//! statements; Break statements; Continue statements).

mod entered;

pub use entered::{enter_label, enter_loop, enter_switch, leave_label, leave_loop, leave_switch};
