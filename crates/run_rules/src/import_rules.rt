//! Imports of a file: the name by which it knows a package, and the edits that add imports and
//! remove those that aren't used any more.

mod laws;
pub mod new_import;

pub use laws::{
    added_names_clash_with_none, needed_names_mean_their_packages, one_name_is_needed,
    settled_edits_stand_in_order, used_imports_stay,
};
pub use new_import::{Needed, NewImport};
