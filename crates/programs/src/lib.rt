//! A program as a run keeps it: its packages, the texts of their files, and the tables that are made of them once.
#![tactic(auto)]

mod file_values;
mod origins_of_uses;
mod part_origins;
mod state;
mod texts_of_packages;
mod users;

pub use file_values::{fill_file, fill_source, program_values};
pub use origins_of_uses::{OriginTable, use_origins};
pub use part_origins::{Origins, PackageOrigins, parts_come_from_themselves, program_origins};
pub use state::{PackageFiles, Program};
pub use texts_of_packages::package_texts;
pub use users::Users;
