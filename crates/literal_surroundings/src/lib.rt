//! What is around a call stays where the call becomes its literal, wherever it stands in a body: what is called
//! names what it named, and statements declare what they declared (Go specification, Calls; Selectors; Function
//! literals; Short variable declarations). Definitions and laws alone, without code.
#![tactic(auto)]

mod laws;

pub use laws::{
    calls_with_facts_leave_what_is_around, literals_in_bodies_keep_cycles,
    literals_leave_what_is_around,
};
