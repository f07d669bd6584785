//! Files with the form of a use in its place, before unused imports go: definitions and laws alone, without code (Go
//! specification, Constant declarations; Qualified identifiers; Import declarations).

mod laws;

pub use laws::{first_uses_are_typed, first_uses_have_next, forms_name_no_import};
