//! Types as Go writes them (Go specification, Types; Function types; Qualified identifiers).
#![tactic(auto)]

mod faults;
mod kinds;
mod names;
mod signatures;
mod texts;

pub use faults::TypeFault;
pub use names::{Home, MAX_TYPE_BYTES};
pub use signatures::signature_text;
pub use texts::{MAX_TYPE_DEPTH, type_text};
