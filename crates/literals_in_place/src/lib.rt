//! Calls and the literals that they become, in whole functions and packages: the literal stands for the call in a
//! function's body, and packages with such bodies show the same (Go specification, Calls; Function literals; Program
//! execution). Definitions and laws alone, without code.
#![tactic(auto)]

mod laws;
mod steps_in_bodies;
mod typed_steps;

pub use laws::{
    bodies_stay_with_imports, facts_stay_beside_others, literal_steps_show_the_same,
    literals_stand_for_calls, mentions_stay_beside_others, modules_with_literals_show_the_same,
    packages_keep_their_code_beside_others, packages_stay_typed_beside_others,
    terms_need_what_they_reach,
};
pub use steps_in_bodies::{
    found_uses_stand_once, steps_in_bodies_show_the_same, steps_put_literals_in_bodies,
    typed_parts_use_no_blank,
};
pub use typed_steps::{literal_steps_keep_programs, typed_steps_show_the_same, typing_clears_uses};
