//! Typing in place: a part of a program that is replaced by one with the same facts leaves all that
//! stands around it typed alike.
#![tactic(auto)]

mod laws;
pub mod name_rounds;
mod same_worlds;
mod specification_examples;

pub use laws::{
    declarations_stand_for_names, declarations_under_other_imports, declared_without_bodies,
    imports_apart, rounds_find_the_least, rounds_settle, the_same_but_for_spans,
    typed_alike_after_a_replacement, well_typed_after_a_replacement,
};
pub use same_worlds::{orders_declare_the_same, typing_finds_the_same};
pub use specification_examples::{constants_as_specified, types_as_specified};
