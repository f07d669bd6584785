//! Which names a function has used so far, and the names of a block whose scopes last, of which each
//! variable must be used before the block ends (Go specification, Declarations and scope; Variable
//! declarations).

mod laws;
mod names;
mod pending;
mod types;

pub use laws::{blocks_are_walked, scopes_begin_and_end};
pub use names::UsedNames;
pub use pending::{PendingName, PendingNames};
pub use types::{use_sig, use_type, use_type_option};
