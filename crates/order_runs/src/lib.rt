//! Steps of a run over constants, and runs of them, that change imports and with them the order of
//! packages: the program after each means what the one before does (Go specification, Import
//! declarations; Packages; Program initialization). Definitions and laws alone, without code.
#![tactic(auto)]

pub mod cycle_laws;
pub mod cycle_runs;
mod import_codes;
mod import_runs;
mod import_steps;
mod laws;
mod run_steps;
mod same_codes;

pub use import_codes::{other_imports_are_typed_alike, other_imports_keep_the_code};
pub use import_runs::{importing_steps_keep_the_code, run_packages_are_moved};
pub use import_steps::importing_steps_mean_the_same;
pub use laws::runs_with_imports_mean_the_same;
pub use run_steps::{packages_need_no_spans, plain_runs_mean_the_same};
pub use same_codes::{orders_make_one_program, translation_finds_the_same};
