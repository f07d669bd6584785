//! Which headers of types are refused (Go specification, Type declarations; Uniqueness of identifiers).
#![tactic(auto)]

mod types;

pub use finite_types::TypeTests;
pub use types::is_refused_type;
