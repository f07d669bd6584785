//! What the names of constants and variables mean in the package blocks of a program: each is found by
//! its own value, and then whole specs are refused (Go specification, Declarations and scope; Constant
//! declarations; Variable declarations).

mod laws;

pub use laws::{
    names_mean_what_they_declare, rounds_by_names_and_of_headers, same_programs_declare_the_same,
    specs_are_their_names,
};
