//! The first import or header of a module's packages that is refused (Go specification, Packages; Import
//! declarations; Declarations and scope).

mod first;
mod laws;

pub use first::{RefusedPlace, first_refused_declaration};
pub use laws::{bodies_come_after, none_is_refused};
