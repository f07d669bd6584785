//! Composite literals over the operands of their elements: structs, slices and maps, keys that are
//! fields, constant indices or values, and elements that leave their type out (Go specification,
//! Composite literals).

mod elements;
mod literals;
mod maps;
mod sets;
mod slices;
mod structs;

pub use elements::{Element, Key};
pub use literals::{built, built_inside, inner_type, key_type, literal_type};
pub use sets::ConstSet;
