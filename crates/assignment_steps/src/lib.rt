//! What assignments give of the answers for their two sides (Go specification, Assignment statements).
#![tactic(auto)]

mod assignments;
mod declared_blocks;
mod define_steps;
mod increment_steps;
mod spec_steps;
mod targets;
mod update_steps;

pub use assignments::assignment;
pub use declared_blocks::{declare_defined, declare_entities};
pub use define_steps::{DefinedList, all_defined, one_defined, short_declaration};
pub use increment_steps::increment;
pub use spec_steps::{new_constants, new_variables};
pub use targets::{Target, TargetList, is_blank_name, stored_at, stores};
pub use update_steps::{is_updated, update};
