//! A call that becomes a literal of its function, from the use and its mark to the meaning of both:
//! what a well-typed program says of the function is what its literal at the call needs (Go
//! specification, Calls; Function literals; Declarations and scope).
#![tactic(auto)]

pub mod added_imports;
mod laws;
pub mod method_literals;
pub mod ranked_marks;
pub mod served_packages;

pub use laws::{
    calls_mean_their_literals, literals_have_no_obstacle, names_there_serve,
    typed_bodies_are_written,
};
