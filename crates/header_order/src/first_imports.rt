//! For each file of a module's packages the first import that is refused, by the names that its declarations use
//! (Go specification, Import declarations).

mod firsts;
mod laws;

pub use firsts::first_refused_imports;
pub use laws::blocks_have_names;
