//! From the first free use that a search finds to the run's next step: definitions and laws alone, without code (Go
//! specification, Constant declarations; Import declarations).

mod laws;

pub use laws::{found_uses_are_steps, steps_go_on};
