//! Names of constants in packages of any declarations: definitions and laws alone, without code (Go specification,
//! Constant declarations; Iota; Package block).

mod laws;

pub use laws::{constants_are_declared, marked_constants_name_constants, member_uses_are_known};
