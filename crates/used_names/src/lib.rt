//! The names that declarations use, as a walk over their trees finds them: what it has to know of the
//! names around a place is which of them are local. Definitions and laws alone, without code (Go
//! specification, Declarations and scope; Import declarations).
#![tactic(auto)]

mod laws;

pub use laws::walks_find_used_names;
