//! A use that is found in a package.

use file_tables::FileTables;
use repeated_parts::use_search::FoundForm;

/// A use that is free, and the form that it becomes, in the file with this number of its package, with the tables of
/// the file.
#[derive(Drop)]
pub struct FoundInPackage {
    pub file: usize,
    pub tables: FileTables,
    pub found: FoundForm,
}
