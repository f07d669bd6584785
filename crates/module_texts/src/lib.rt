//! The texts of a module's files, what they read as, and why they aren't read.
#![tactic(auto)]

mod faults;
mod files;
mod laws;
mod modules;

pub use faults::{ReadFault, TextFault};
pub use files::{ScannedFile, is_go_file};
pub use laws::selected_files_read_alike;
pub use modules::ReadModule;
