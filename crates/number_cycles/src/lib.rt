//! Which numbers lie on cycles of links.
#![tactic(auto)]

mod cycles;
mod order;
mod owners;
mod reversed;

pub use cycles::on_cycles;
