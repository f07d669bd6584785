//! Modules that are inlined: their new files read as a module, which is well typed and means what the old one means.
//! Definitions and laws alone, without code (Go specification, Packages; Program initialization and execution).

mod laws;

pub use laws::{
    kept_modules_are_inlined, printed_modules_are_inlined, runs_over_constants_inline,
    runs_over_marks_inline,
};
