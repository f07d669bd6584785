//! Packages whose declarations are constants, and functions that print them: definitions and laws alone, without code
//! (Go specification, Constant declarations; Function declarations; Expression statements).
#![tactic(auto)]

mod counted_names;
pub mod declared_constants;
mod declared_members;
mod form_names;
pub mod inlined_files;
mod laws;
mod named_uses;
mod printed_runs;
mod printed_steps;
mod printed_uses;
mod qualified_dots;
mod removed_imports;
mod standing_forms;
pub mod typed_parts;
mod used_imports;

pub use constant_edits::step_edits;
pub use counted_names::{printed_files_have_few_names, printed_steps_avoid_few_names};
pub use declared_members::constants_name_members;
pub use form_names::forms_name_no_blank;
pub use laws::{printed_packages_are_plain, printed_parts_are_simple, steps_stay_printed};
pub use named_uses::constants_names_stand;
pub use printed_runs::printed_runs_keep;
pub use printed_steps::printed_steps_keep;
pub use printed_uses::{printed_steps_are_over, printed_uses_are_expressions, printed_uses_stand};
pub use qualified_dots::printed_dots_are_qualified;
pub use removed_imports::printed_steps_remove_no_look_ups;
pub use standing_forms::{first_uses_are_typed, first_uses_have_next, forms_name_no_import};
pub use used_imports::printed_imports_are_used;
