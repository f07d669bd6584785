//! The names that parts of a program look up, where keys of composite literals that name fields are told from them:
//! definitions and laws alone, without code (Go specification, Composite literals; Declarations and scope).
#![tactic(auto)]

mod laws;

pub use laws::{
    looked_up_names_are_translated_alike, looked_up_names_are_typed_alike, specs_declare_the_same,
};
