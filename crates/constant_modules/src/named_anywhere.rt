//! Steps over constants that are declared as names, of any packages, in declarations of every form: with literals of
//! functions and composite types, and with groups of constants that repeat an expression; and runs of such steps.
//! Definitions and laws alone, without code (Go specification, Constant declarations; Qualified identifiers; Function
//! literals; Composite literals; Import declarations).

mod laws;
mod marked;
mod taken;

pub use laws::{
    known_named_parts_mean_the_same, named_parts_are_known, named_uses_anywhere_mean_the_same,
};
pub use marked::{
    runs_anywhere_keep, runs_over_marks_anywhere_inline, runs_over_marks_anywhere_keep,
};
pub use taken::names_are_taken_anywhere;
