//! The refusal of a run that passes a limit.

mod refused;

pub use refused::limit_refusal;
