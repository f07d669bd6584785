//! What a report tells of steps, of uses that are kept and of marks that mean nothing.

mod words;

pub use words::{bad_text, inlined_text, kept_text};
