//! What the code that looks for uses asks of a declaration's parts, where they are typed. Laws alone,
//! without code.

mod laws;

pub use laws::{typed_parts_are_keyed, well_typed_files_are_scoped};
