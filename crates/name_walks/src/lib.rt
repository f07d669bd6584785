//! What a walk over a tree gathers of names, sets of names, and names that are new to a set.
#![tactic(auto)]

mod around;
mod new_names;
mod sets;
mod walk;

pub use new_names::new_name;
pub use sets::{NameSet, add_all, each_once};
pub use walk::{LocalScope, NameWalk, Nesting, Wanted};
