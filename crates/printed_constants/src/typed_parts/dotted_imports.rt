//! In well-typed files names of imports stand before dots alone: definitions and laws alone, without code (Go
//! specification, Qualified identifiers; Import declarations).

mod laws;

pub use laws::well_typed_files_are_dotted;
