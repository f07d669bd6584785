//! The report over several files: what is told of each, by the offsets at which it is told.
#![tactic(auto)]

mod laws;
mod limit_refusals;
mod order;
mod report_files;
mod report_words;
mod rows;
mod text;

pub use laws::rows_make_the_report;
pub use limit_refusals::limit_refusal;
pub use report_files::{reports_are_by_file, steps_lie_in_files};
pub use report_words::{bad_text, inlined_text, kept_text};
pub use rows::ReportRow;
pub use text::{ReportSource, report_text};
