//! A run of `gofix`: the words, the module that is read, what is written of it, the report and the status. The top call
//! is `gofix`.
#![tactic(auto)]

mod apply;
mod laws;
mod prepare;
mod report;
mod requests;
mod status;
mod tell;
mod top;

pub use laws::one_verdict_at_most;
pub use status::Status;
pub use top::gofix;
