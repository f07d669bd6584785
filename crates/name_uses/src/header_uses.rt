//! The names of the file that its declarations use (Go specification, Declarations and scope; Import
//! declarations).

mod decls;
mod laws;

pub use decls::decls_uses;
pub use laws::{places_know_final_types, walks_find_uses_of_headers};
