//! What a well-typed program says of its blocks: no name of a package block is `init`, and each import of
//! a file may be declared (Go specification, Declarations and scope; Package block; Import declarations;
//! Program initialization and execution). Definitions and laws alone, without code.

mod laws;

pub use laws::{imports_may_be_declared, members_are_not_init};
