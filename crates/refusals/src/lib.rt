//! Why a module is refused, and the line that says so.
#![tactic(auto)]

mod line;
mod refusal;

pub use line::write_refusal;
pub use refusal::{Detail, Limit, Refusal};
