//! Which types of a program are refused (Go specification, Type declarations; Struct types; Map types).

mod asked;
mod good;
mod refuse;

pub use asked::TypeTests;
pub use good::is_good_type;
pub use refuse::refuse_types;
