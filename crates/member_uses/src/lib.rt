//! The members of package blocks that parts of a declaration name.
#![tactic(auto)]

mod laws;
mod names;
mod parts;
pub mod possible_uses;
mod uses;

pub use constant_steps::form_imports::steps_settle_imports;
pub use laws::{marked_members_are_sites, members_stay};
pub use names::{FileScopes, type_package};
pub use parts::member_uses;
pub use uses::MemberUse;
