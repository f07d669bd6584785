//! The literal that a run writes for a call is written from the marked function, where no obstacle
//! is found; so the call means it (Go specification, Calls; Function literals; Qualified
//! identifiers; Exported identifiers).

mod laws;
mod unspread_forms;

pub use laws::{
    clear_calls_mean_their_literals, names_mean_the_same, unobstructed_functions_are_written,
    walks_list_declarations,
};
pub use unspread_forms::forms_hand_on_no_slice;
