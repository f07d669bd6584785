//! Plans.

use crate::planned_files::changed_files::ChangedFile;
use go_tree::Text;

/// What is to be written and reported of a module.
#[derive(Drop)]
pub struct Plan {
    /// A line for each step, for each use that is kept and for each mark that means nothing, by path and by place in
    /// the files as read.
    pub report: Text,
    /// The number of steps.
    pub steps: u32,
    /// The files whose bytes differ from those read, in the order of their paths, with their new bytes.
    pub writes: Vec<ChangedFile>,
}
