//! Searches in the files of well-typed programs: laws alone, without code (Go specification, Constant declarations;
//! Composite literals; Operands).

mod laws;

pub use laws::{tables_serve_programs, typed_files_are_searchable};
