//! Steps over calls whose forms need imports: with these imports added the use is where it was, and becomes the
//! same form (Go specification, Calls; Import declarations; Qualified identifiers; Declarations and scope).

mod laws;

pub use laws::{added_imports_keep_forms, found_steps_put_their_forms};
