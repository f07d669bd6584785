//! The files of a module in the order of its packages: their trees, the places outside all their functions, and such a
//! place with the imports of its file alone (Go specification, Packages; Blocks; Import declarations).

mod files;
mod headers;
mod imports;
mod trees;

pub use files::{FilePlace, file_places, place_of};
pub use imports::own_place;
