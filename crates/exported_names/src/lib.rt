//! Which names are exported (Go specification, Exported identifiers).
#![tactic(auto)]

mod exported;

pub use exported::is_exported;
