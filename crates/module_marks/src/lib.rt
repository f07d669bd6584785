//! The marks of a module by the numbers of their declarations, its bad marks, and a table that says of a name of a package
//! block whether it is marked.
#![tactic(auto)]

mod file_marks;
mod gather;
mod mark_set;
mod sources;
mod spans;
mod table;

pub use file_marks::{BadMarkAt, ModuleMarks};
pub use gather::find_marks;
pub use mark_set::MarkSet;
pub use table::MarkTable;
