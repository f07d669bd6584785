//! What the names of constants and variables mean in the package blocks of a program, and which of their
//! headers are refused (Go specification, Declarations and scope; Constant declarations; Variable
//! declarations). Definitions and laws.
#![tactic(auto)]

mod headers_stay;
pub mod name_rounds;
mod underlying_types;

pub use headers_stay::headers_are_final;
pub use underlying_types::chains_of_names_end;
