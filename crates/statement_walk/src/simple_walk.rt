//! The walk over statements in which no others stand: calls, assignments, `++` and `--`, `return` and
//! jumps. It calls the rule of each on the answers for its expressions (Go specification, Statements).

mod assigns;
mod calls;
mod constant_groups;
mod left_sides;
mod returns;
mod simple;

pub use constant_groups::{has_none, own_or_repeated, repeated_member, written_type};
pub use left_sides::targets;
pub use simple::simple_statement;
