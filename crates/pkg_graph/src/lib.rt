//! Modules: which packages files make, what those import, and in which order they come.
#![tactic(auto)]

mod assembly;
mod checks;
mod homes;
pub mod import_order;
mod imports;
mod laws;
pub mod module_files;
mod module_graph;
pub mod packages;

pub use crate::module_files::{
    GraphError, Module, internal_elements_decide, is_module_path, may_import, read_module, selected,
};
pub use laws::{one_fault_at_most, one_order_at_most, one_program_at_most};
pub use module_graph::{Graph, build};
pub use packages::{Package, SourceList, SourceTree};
