//! A file as it is read.

use go_tree::Text;

/// A file of a folder: its index where it was listed, its path in the module, and its bytes.
#[derive(Drop)]
pub struct SourceFile {
    pub index: u32,
    pub path: Text,
    pub bytes: Text,
}
