//! A module that is read.

use crate::files::ScannedFile;
use pkg_graph::{Graph, Module};

/// A module that is read: its path, its packages with their trees, and the files of Go source in the order in which
/// they were given, with their tokens and comments.
#[derive(Drop)]
pub struct ReadModule<'a> {
    pub home: Module,
    pub graph: Graph,
    pub files: Vec<ScannedFile<'a>>,
}
