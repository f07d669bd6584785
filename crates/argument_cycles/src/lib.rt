//! Calls that become the one expression of their function or method, with the receiver and the arguments in
//! the places of parameters, and the cycles of marked functions: what is called in the expression names what
//! it named, and what the arguments call is called still; and calls that become statements in braces or a
//! literal, where some arguments take the places of parameters (Go specification, Calls; Method declarations;
//! Qualified identifiers; Blocks; Function literals). Definitions and laws alone, without code.
#![tactic(auto)]

pub mod argument_runs;
pub mod found_there;
pub mod importing_steps;
mod laws;
pub mod left_uses;
pub mod typed_bodies;
pub mod typed_methods;

pub use laws::{
    arguments_are_put, arguments_stay, callees_are_led, free_steps_keep_cycles,
    names_name_no_more_inside, placed_arguments_call_through, placed_block_steps_keep_cycles,
    placed_blocks_come_through, placed_literal_steps_keep_cycles, placed_literals_come_through,
    placed_steps_keep_cycles,
};
