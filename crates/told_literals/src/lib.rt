//! What a right table of declared types tells of the files of well-typed packages: which keys of their composite
//! literals name fields (Go specification, Composite literals; Declarations and scope). Definitions and laws alone,
//! without code.
#![tactic(auto)]

mod laws;

pub use laws::right_tables_tell_fields;
