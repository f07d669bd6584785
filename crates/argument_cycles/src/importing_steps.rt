//! Steps over calls that add imports: with the imports of its form added, the use becomes this form still, and
//! what is put calls through (Go specification, Calls; Import declarations; Qualified identifiers).

mod laws;

pub use laws::{added_steps_keep_cycles, added_steps_put_through};
