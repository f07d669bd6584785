//! Declarations of constants in a function: a group of specs, each of which may repeat the type and the
//! values before it, with the number of the spec as `iota` (Go specification, Constant declarations;
//! Iota).

mod groups;
mod members;

pub use groups::{has_none, own_or_repeated, repeated_member};
pub use members::written_type;
