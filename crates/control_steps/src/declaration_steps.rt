//! What declarations in a function declare, by the answers for their types and values: constants,
//! variables, and short declarations (Go specification, Declarations and scope; Constant declarations;
//! Variable declarations; Short variable declarations).

mod entities;
mod lists;
mod names;

pub use entities::{Declares, declared_entity};
pub use lists::{EntityList, declared_entities, zero_entities};
pub use names::may_declare;
