//! What the constants and the variables of one header, or one name by its own value, are declared as in the block of
//! their package, and headers whose names are refused there (Go specification, Constant declarations; Variable
//! declarations; Package block). The literals of the values that files declare are well spelled where the files read
//! from texts (Integer literals; Rune literals; String literals).

mod headers;
mod laws;
mod names;
mod refusals;
mod singles;
mod values;

pub use headers::is_value;
pub use laws::{read_bodies_are_formed, read_values_are_spelled};
pub(crate) use refusals::{has_values, refuse_names};
pub(crate) use singles::{declare_single, is_value_name};
