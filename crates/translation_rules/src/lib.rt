//! Which parts the translation has a rule for: definitions and laws alone, without code.
#![tactic(auto)]

mod declared_results;
mod laws;
mod single_values;
mod source_names;

pub use declared_results::declared_functions_have_their_results;
pub use laws::no_rule_is_missing;
pub use single_values::values_are_single_everywhere;
pub use source_names::local_names_are_spelled;
