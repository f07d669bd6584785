//! Tests of trees that are read: spans, copies and depth of files' parts, places in a text, and which files hold only
//! constants and functions that print them.
#![tactic(auto)]

#[cfg(test)]
mod files;
#[cfg(test)]
mod printed;
#[cfg(test)]
mod spans;
#[cfg(test)]
mod texts;
#[cfg(test)]
mod trees;
