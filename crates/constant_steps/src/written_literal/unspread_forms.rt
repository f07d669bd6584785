//! Forms in programs without calls that hand on a slice: they have none (Go specification, Passing arguments to ...
//! parameters).

mod laws;

pub use laws::forms_hand_on_no_slice;
