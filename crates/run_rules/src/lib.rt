//! What a run of the inliner is: the places of a program, the uses of marked declarations, the forms
//! that may take their place and what keeps them, the next step, the run and its report.
#![tactic(auto)]

pub mod import_rules;
mod laws;

pub use laws::{
    edits_of_steps_stand_apart, ended_runs_keep_all_uses, names_found_are_needed,
    packages_stand_in_dependency_order, programs_have_one_run, replacing_asks_at_the_places_listed,
    steps_keep_cycles, striking_leaves_the_greatest_set,
};
