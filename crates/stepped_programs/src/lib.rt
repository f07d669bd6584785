//! Programs on the way of a run: what searches in them find, the first use that is free, the step over it, and the program
//! after the step.
#![tactic(auto)]

mod declarations;
mod first_uses;
mod flags;
mod held_blocks;
mod laws;
pub mod loaded_programs;
mod origins;
pub mod package_search;
mod place;
pub mod programs_on_the_way;
pub mod run_reports;
mod searched_sites;
mod stepped_values;
mod steps;
mod swapped;
mod texts;

pub use first_uses::{
    FirstUse, first_use, first_uses_are_steps, first_uses_keep_programs, found_uses_may_step,
    step_use, use_steps_go_on,
};
pub use held_blocks::HeldBlock;
pub use laws::{origins_are_swapped, steps_keep_programs, steps_keep_settled, steps_may_be_put};
pub use place::StepPlace;
pub use searched_sites::{
    files_are_searched_in_order, found_uses_are_steps, kept_uses_are_told_once, kept_uses_stay,
    looks_tell_files, origins_are_told, programs_are_open, searched_programs_stay,
    searches_find_sites, searches_find_steps, searches_settle_files, settled_files_stay,
    steps_go_on, steps_leave_other_files, steps_swap_parts, tables_serve_programs,
    typed_files_are_searchable, typed_files_are_sound, values_are_told,
};
pub use stepped_values::{
    constants_stay_marked, marked_values_stay, programs_are_held, settled_flags_stay,
    values_are_told_after_steps,
};
pub use steps::{put_step, step_origins};
