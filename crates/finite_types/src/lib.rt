//! Which types are finite: a defined type reaches itself neither by names nor by fields alone (Go
//! specification, Struct types; Underlying types).
#![tactic(auto)]

mod flags;
mod grown;
mod order;
mod refused_types;

pub use flags::{finite_types, is_finite};
pub use grown::{extend_finite, first_finite};
pub use named_types::define_types;
pub use refused_types::{TypeTests, is_good_type, refuse_types};
