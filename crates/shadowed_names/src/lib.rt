//! The first name of a marked declaration that means something else at a use of it.
#![tactic(auto)]

mod names;
mod places;

pub use names::shadowed_name;
pub use places::UsePlace;
