//! What Go means: the translation of packages into the kernel language, and what a run of a main
//! package shows (Go specification, Expressions, Statements, Program execution).
//! `specs/` holds the definitions; the functions here have empty bodies, and their contracts are the laws.
#![tactic(auto)]

mod laws;

pub use laws::{
    budgets_and_free_prices_of_packages, code_is_scoped, constants_may_be_swapped,
    deferred_literals_may_keep_the_frame, nothing_missing_is_asked_for, packages_need_no_spans,
    swapped_packages_show_the_same, translated_alike, translation_needs_no_spans,
    typed_values_are_single,
};
