//! What a declaration binds goes into the innermost block, one name after the other (Go specification,
//! Declarations and scope).

mod defined;
mod entities;

pub use defined::declare_defined;
pub use entities::declare_entities;
