//! What the names of constants and variables mean in the package blocks of a program is what is found of
//! them name by name, until no value declares more, and then refused of them header by header (Go
//! specification, Declarations and scope; Constant declarations; Variable declarations). Laws alone.

mod laws;

pub use laws::{
    headers_are_refused_in_passes, headers_are_refused_step_by_step, names_are_found_in_passes,
    names_are_found_step_by_step,
};
