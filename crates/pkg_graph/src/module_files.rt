//! Files of a module by their paths: which are read, what `go.mod` says, and which packages may be
//! imported from where.

pub mod faults;
mod fields;
pub mod folders;
mod internal;
mod laws;
mod module_file;
pub mod paths;
mod selection;
mod version;

pub use faults::{GraphError, Module};
pub use internal::may_import;
pub use laws::internal_elements_decide;
pub use module_file::{is_module_path, read_module};
pub use selection::selected;
