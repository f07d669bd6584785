//! The report of a run: rows of its steps, of the uses that its last program keeps, and of marks that mean nothing.

mod bad_marks;
mod files;
mod kept;
mod laws;
mod names;
mod program_uses;
mod reports;
mod spans;
mod steps;

pub use bad_marks::add_bad_marks;
pub use files::find_files;
pub use laws::{kept_rows_tell, reports_are_of_runs, rows_tell};
pub use program_uses::add_kept_uses;
pub use reports::run_report;
pub use steps::{LoggedStep, step_row};
