//! The file that a step leaves.

use crate::limits::Passed;
use go_scan::Tokens;
use go_tree::{FileTree, Text};

/// A file as a step leaves it: its text, the tokens and comments of the text, and its tree.
#[derive(Drop)]
pub struct NewFile {
    pub text: Text,
    pub tokens: Tokens,
    pub tree: FileTree,
}

/// Why a step leaves no file.
#[derive(Drop)]
pub enum FileFault {
    /// The step passes a limit of the run.
    TooLarge(Passed),
    /// The new text reads as no file of supported words.
    NotRead,
    /// Memory was refused.
    NoMemory,
}
