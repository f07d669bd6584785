//! The names of each file of a module: its imports with the names that they have there, and the names of its package
//! block.
#![tactic(auto)]

mod declared;
mod imports;
mod members;
mod names;
mod places;

pub use declared::{DeclaredName, NameKind, declared_names};
pub use imports::{find_packages, package_name};
pub use members::{MarkRef, Member, block_members, member_names};
pub use names::names_of_file;
pub use places::Places;
