//! Typing beside packages that aren't imported: what packages declare, and whether they are typed,
//! is the same whatever else stands in the program (Go specification, Import declarations;
//! Declarations and scope; Packages). Laws alone, without code.
#![tactic(auto)]

mod laws;

pub use laws::{
    first_packages_stand_alone, further_packages_change_nothing, headers_need_what_they_reach,
    typing_needs_what_it_reaches,
};
