//! Modules all of whose marks are of constants, whatever else they declare: definitions and laws alone, without code (Go
//! specification, Constant declarations; Declarations and scope; Import declarations; Program initialization and
//! execution).
#![tactic(auto)]

pub mod apart_keys;
pub mod constant_names;
pub mod constant_programs;
pub mod constant_runs;
pub mod constants_of_groups;
pub mod counted_uses;
pub mod few_names;
pub mod kept_uses;
pub mod keyed_imports;
pub mod look_ups;
pub mod named_anywhere;
pub mod named_there;
pub mod names_and_keys;
pub mod typed_forms;
pub mod typed_uses;
