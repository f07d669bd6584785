//! The lines of a report over one file, with the places of many offsets in one pass over the text.
#![tactic(auto)]

mod laws;
mod lines;
mod places;

pub use laws::report_has_these_lines;
pub use lines::{ReportItem, report_lines};
