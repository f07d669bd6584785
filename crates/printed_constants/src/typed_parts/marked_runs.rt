//! Runs over marked constants, from a module as it reads: definitions and laws alone, without code (Go specification,
//! Constant declarations; Import declarations; Program initialization and execution).

mod kept_marks;
mod laws;
mod linked_members;
mod named_marks;
mod put_forms;
mod ready_modules;
mod settled_constants;
mod sound_imports;
mod taken_names;

pub use kept_marks::marks_stay_named;
pub use laws::runs_over_marks_keep;
pub use linked_members::members_are_linked;
pub use named_marks::{read_marks_are_named, uses_are_marked};
pub use put_forms::{constants_come_next, forms_of_constants_are_put, values_are_names};
pub use ready_modules::read_modules_are_ready;
pub use settled_constants::{constants_keep_cycles, constants_settle, programs_are_ready};
pub use sound_imports::{added_imports_may_be_declared, settled_imports_may_be_declared};
pub use taken_names::{names_are_taken, runs_over_constants_keep};
