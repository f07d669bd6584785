//! Which headers of a module's declarations are refused, over all kinds, and the first of each file (Go
//! specification, Declarations and scope; Uniqueness of identifiers; Type declarations; Method
//! declarations).
#![tactic(auto)]

mod files;
mod first_imports;
mod first_refusals;
mod kinds;
mod laws;
mod refused_imports;
mod types;

pub use files::first_refused_headers;
pub use first_imports::{blocks_have_names, first_refused_imports};
pub use first_refusals::{
    RefusedPlace, bodies_come_after, first_refused_declaration, none_is_refused,
};
pub use kinds::{RefusedHeaders, refused_marks};
pub use laws::{counts_of_modules, headers_by_files, marks_are_wrongs};
pub use refused_imports::{first_refused_import, uses_are_of_files};
pub use types::refused_types;
