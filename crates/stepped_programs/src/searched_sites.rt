//! What a search among the uses of marked constants finds is what a run takes: definitions and laws alone, without code.

mod found_steps;
mod kept_places;
mod kept_programs;
mod kept_uses;
mod laws;
mod looked_files;
mod ordered_searches;
mod settled_files;
mod sound_files;
mod swapped_parts;
mod told_origins;
mod told_values;
mod typed_searches;

pub use found_steps::{found_uses_are_steps, steps_go_on};
pub use kept_places::kept_uses_are_told_once;
pub use kept_programs::{programs_are_open, searched_programs_stay};
pub use kept_uses::kept_uses_stay;
pub use laws::{files_are_searched_in_order, searches_find_sites};
pub use looked_files::looks_tell_files;
pub use ordered_searches::{searches_find_steps, searches_settle_files};
pub use settled_files::{settled_files_stay, steps_leave_other_files};
pub use sound_files::typed_files_are_sound;
pub use swapped_parts::steps_swap_parts;
pub use told_origins::origins_are_told;
pub use told_values::values_are_told;
pub use typed_searches::{tables_serve_programs, typed_files_are_searchable};
