//! The parts of a declaration that may be uses of a marked declaration.

mod decls;
mod exprs;
mod laws;
mod parts;
mod stmts;
mod types;
mod written;

pub use decls::decl_parts;
pub use laws::parts_are_among_all;
pub use parts::PartRef;
