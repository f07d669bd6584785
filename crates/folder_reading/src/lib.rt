//! The files of a folder that are read, within the limits of a module.
#![tactic(auto)]

mod faults;
mod folder;
mod limits;
mod reading;

pub use faults::FolderFault;
pub use folder::read_folder;
pub use limits::{MAX_FILES, MAX_MODULE_BYTES};
