//! How few different names a step avoids, in files of any declarations: definitions and laws alone, without code (Go
//! specification, Identifiers; Import declarations).

mod laws;

pub use laws::{steps_avoid_few_names, steps_keep_look_ups};
