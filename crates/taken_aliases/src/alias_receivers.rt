//! Receivers whose types are named by aliases: a step that writes the name of the defined type in an
//! alias's place keeps typing and the meaning (Go specification, Method declarations; Alias
//! declarations). Definitions and laws alone, without code.

mod laws;

pub use laws::{
    aliases_name_receivers, receiver_steps_mean_the_same, receiver_uses_mean_the_same,
    renamed_receivers_mean_the_same,
};
