//! Steps of a run over aliases at the places that their uses have once the imports of their forms are
//! added, and runs of such steps and of those over constants (Go specification, Alias declarations;
//! Constant declarations; Import declarations; Program execution). Definitions and laws alone, without
//! code.
#![tactic(auto)]

mod alias_receivers;
mod laws;
mod mixed_runs;
mod put_calls;
mod put_texts;
mod typed_blocks;
mod written_uses;

pub use alias_receivers::{
    aliases_name_receivers, receiver_steps_mean_the_same, receiver_uses_mean_the_same,
    renamed_receivers_mean_the_same,
};
pub use laws::{aliases_are_taken, steps_stay_ready};
pub use mixed_runs::{aliases_settle, runs_over_names_keep};
pub use put_calls::{
    aliases_become_type_expressions, type_expressions_are_put, type_expressions_are_put_by_steps,
};
pub use put_texts::{aliases_become_types, types_are_put, types_are_put_by_steps};
pub use typed_blocks::{imports_may_be_declared, members_are_not_init};
pub use written_uses::{uses_are_written, written_uses_are_over};
