//! A text whose imports are settled reads as the file with its imports settled: definitions and laws alone, without
//! code.

mod form_splices;
mod import_places;
mod laws;
mod supported_words;
mod typed_dots;

pub use form_splices::{forms_are_spliced, steps_make_forms};
pub use import_places::imports_of_read_files_lie;
pub use laws::{forms_and_imports_are_read_at_once, imports_are_settled, unused_imports_go};
pub use supported_words::{constraints_stay, spelled_words_are_supported};
pub use typed_dots::{files_without_spread_calls_are_undotted, well_typed_files_are_undotted};
