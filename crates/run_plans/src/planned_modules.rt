//! What is planned for the files that are read of a folder, or why nothing is: the module that they are, its run over
//! marked constants, which files that changes, and its report.

mod dots;
mod faults;
mod laws;
mod modules;
mod names;
mod places;
mod plan;
mod runs;
mod sizes;
mod sources;
mod told;
mod types;

pub use faults::ModuleFault;
pub use laws::{
    one_answer_at_most, plans_inline_modules, read_files_are_folders, refusals_name_files,
    taken_modules_pass_limits,
};
pub use modules::plan_module;
pub use plan::Plan;
