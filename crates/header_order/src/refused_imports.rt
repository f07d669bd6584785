//! The first import of a file that is refused: its name may not be declared, or no declaration of the file
//! uses it (Go specification, Import declarations).

mod first;
mod laws;

pub use first::first_refused_import;
pub use laws::uses_are_of_files;
