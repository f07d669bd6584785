//! Files without a free use stay so while a step leaves them and the constants that they use as they are: definitions
//! and laws alone, without code (Go specification, Constant declarations; Declarations and scope).

mod laws;

pub use laws::{settled_files_stay, steps_leave_other_files};
