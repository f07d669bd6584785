//! What is found of the expressions of a declaration, kept in the order in which a walk finds it, parts before their
//! whole, and found again by place (Go specification, Expressions; Constant expressions).
#![tactic(auto)]

mod findings;
mod laws;

pub use findings::{Finding, Findings};
pub use laws::kept_findings_are_facts;
