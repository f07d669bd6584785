//! Where the constants and the variables of one header are typed: the place outside all functions of its
//! file, with those imports that the header names (Go specification, Declarations and scope; Import
//! declarations; Iota).

mod names;
mod places;

pub use names::{names_of_one, value_names};
pub use places::value_place;
