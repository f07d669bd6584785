//! The package blocks and file blocks of a program before anything is known of what it declares, and the
//! headers of its declarations in their order (Go specification, Blocks; Declarations and scope; Import
//! declarations).
#![tactic(auto)]

mod collected;
mod decls;
pub mod func_headers;
mod headers;
mod imports;
mod names;
mod numbers;
mod specs;
mod types;

pub use collected::{PackageNames, collect_names};
pub use headers::{HeaderKind, PackageHeader};
pub use types::type_headers;
