//! Which files a run changes, and their new bytes.

mod changed;

pub use changed::{ChangedFile, LastText, changed_files};
