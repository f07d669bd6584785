//! Programs on the way of a run over constants, step by step, with all that is kept of them: definitions and laws
//! alone, without code (Go specification, Constant declarations; Packages; golang.org/x/tools,
//! internal/refactor/inline, for what a run is).

mod laws;

pub use laws::{first_uses_come_next, runs_begin, runs_end, steps_stay_on_the_way};
