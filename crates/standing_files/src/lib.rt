//! The files of well-typed packages stand with all their names declared, so what the laws of calls that
//! become literals ask of files holds in each well-typed module (Go specification, Packages; Declarations
//! and scope; Import declarations; Calls; Function literals). Definitions and laws alone, without code.
#![tactic(auto)]

mod laws;
mod use_laws;

pub use laws::{names_of_files_mean_the_same, typed_files_stand};
pub use use_laws::{
    called_packages_serve, calls_mean_literals, calls_mean_literals_with_imports,
    method_calls_mean_literals, served_calls_mean_literals, typed_packages_are_ranked,
    typed_uses_are_linked, uses_mean_literals,
};
