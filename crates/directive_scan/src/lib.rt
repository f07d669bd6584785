//! Marks for inlining: the lines `//go:fix inline` before declarations.
#![tactic(auto)]

mod around;
mod constants;
mod directive;
mod found;
mod items;
mod laws;
mod line_flags;
mod line_marks;
mod line_table;
mod mark_lines;
pub mod mark_types;
mod merge;
mod scan;

pub use directive::is_directive;
pub use laws::{lead_lines_decide, lists_hold_the_marks};
pub use mark_types::{BadMark, BadReason, Mark, MarkKind, Marks};
pub use scan::marks;
