//! Jumps: the labels, loops and switches around a place, which jumps leave a statement, and the labels
//! of a body (Go specification, Labeled statements; Break statements; Continue statements; Terminating
//! statements).
#![tactic(auto)]

mod around;
mod distinct_names;
mod jump_places;
mod jumps;
mod labels;
mod used_locals;

pub use around::{Around, LabelAround, is_breakable, is_loop};
pub use distinct_names::{are_distinct, stand_once};
pub use jump_places::{
    enter_label, enter_loop, enter_switch, leave_label, leave_loop, leave_switch,
};
pub use jumps::{breaks, breaks_in};
pub use labels::labels_stand_once;
pub use used_locals::{
    PendingName, PendingNames, UsedNames, blocks_are_walked, scopes_begin_and_end, use_sig,
    use_type, use_type_option,
};
