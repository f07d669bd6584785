//! Files of a folder, as they are read.
#![tactic(auto)]

mod files;

pub use files::SourceFile;
