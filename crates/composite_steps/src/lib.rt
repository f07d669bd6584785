//! What composite literals give of the answers for their elements, and elements of the answers for
//! their keys and values (Go specification, Composite literals).
#![tactic(auto)]

mod builtin_steps;
mod elements;
pub mod literal_rules;
mod literals;
mod operands;
mod types;

pub use builtin_steps::builtin_call;
pub use elements::{ElementList, keyed, of_field, unkeyed};
pub use literals::{literal, literal_inside};
pub use operands::operand_of;
pub use types::{inner_type, is_struct, key_type, literal_type};
