//! Uses of constants with the imports of their forms added, in programs of any declarations: definitions and laws
//! alone, without code (Go specification, Constant declarations; Qualified identifiers; Import declarations; Blocks).

mod laws;

pub use laws::{
    constant_steps_take_names, constant_uses_are_there, constants_stay_untyped, steps_list_the_same,
};
