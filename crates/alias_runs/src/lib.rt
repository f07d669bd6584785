//! Steps of a run over aliases that add imports and remove those that nothing needs, in whatever
//! order the packages stand, and runs of such steps and of those over constants: the program after
//! means what the one before does (Go specification, Alias declarations; Constant declarations;
//! Import declarations; Program initialization). Definitions and laws alone, without code.
#![tactic(auto)]

mod alias_cycles;
mod alias_imports;
mod alias_sites;
mod alias_steps;
mod alias_texts;
mod called_aliases;
mod laws;
mod qualified_aliases;
mod settled_types;

pub use alias_cycles::alias_steps_keep_cycles;
pub use alias_imports::imports_stay_right;
pub use alias_sites::{aliases_are_declared_first, plain_type_uses_mean_the_same};
pub use alias_steps::{
    alias_steps_mean_the_same, plain_aliases_become_names, uses_of_aliases_stand,
};
pub use alias_texts::{retyped_trees_are_typed_alike, retyped_trees_mean_the_same};
pub use called_aliases::called_aliases_mean_the_same;
pub use laws::{alias_steps_with_imports_mean_the_same, runs_over_names_mean_the_same};
pub use qualified_aliases::aliases_in_any_package_mean_the_same;
pub use settled_types::types_are_settled;
