//! Runs over whole modules, from what is read to the files that are to be written and the report (golang.org/x/tools,
//! internal/refactor/inline, for what a run is).
#![tactic(auto)]

pub mod inlined_programs;
pub mod planned_files;
pub mod planned_modules;
