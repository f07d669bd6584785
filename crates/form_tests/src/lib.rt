//! Tests of the calls that make the forms of calls: what they write, printed.
#![tactic(auto)]

#[cfg(test)]
mod literals;
