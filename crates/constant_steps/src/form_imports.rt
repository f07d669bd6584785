//! What the forms of a run write is used in their files: definitions and laws alone, without code.

mod import_laws;
mod laws;

pub use import_laws::{graph_files_may_be_settled, steps_settle_imports};
pub use laws::{forms_use_their_imports, packages_have_own_names};
