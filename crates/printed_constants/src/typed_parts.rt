//! The parts of what is typed: each is typed where it stands. Laws alone, without code.

mod dotted_imports;
mod laws;
pub mod marked_runs;
mod scoped_parts;
pub mod standing_uses;

pub use dotted_imports::well_typed_files_are_dotted;
pub use laws::{typed_bodies_have_typed_parts, well_typed_programs_have_typed_parts};
pub use scoped_parts::{typed_parts_are_keyed, well_typed_files_are_scoped};
