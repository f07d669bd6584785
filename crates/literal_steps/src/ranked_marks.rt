//! Ranks of marked functions: those that lie on no cycle have ranks along their calls, and translated
//! programs are ranked by them, as the laws of calls ask (Go specification, Calls; Function declarations;
//! Defer statements).

mod laws;

pub use laws::{
    code_names_what_it_calls, functions_have_ranks, literal_uses_mean_their_literals,
    marks_bound_ranks, programs_are_ranked,
};
