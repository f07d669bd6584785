//! Rules of access over operands: selectors, indices, slices, dereferences, addresses and calls
//! (Go specification, Selectors; Index expressions; Slice expressions; Address operators; Calls).

mod builtin_rules;
mod calls;
mod fields;
mod forms;
mod indices;
mod methods;
mod places;
mod pointers;
mod selectors;
mod slices;

pub use builtin_rules::{
    allocates, appends, capacity, copies, deletes, is_printed, length, makes, panics,
};
pub use calls::{takes_all, takes_call, takes_values};
pub use fields::{find_field, is_blank, sees};
pub use forms::form;
pub use indices::{index_of, index_place, is_index, is_text};
pub use places::Place;
pub use pointers::{address_of, pointed};
pub use selectors::{Selection, selected, selected_place};
pub use slices::{contents_rise, sliced};
