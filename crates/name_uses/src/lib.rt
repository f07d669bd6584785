//! What a walk knows that finds the names that a declaration uses, and its steps: names, types that are
//! written, the begin and the end of blocks and of composite literals (Go specification, Declarations and
//! scope; Composite literals).
#![tactic(auto)]

mod body_uses;
mod header_uses;
mod inside;
mod literals;
mod locals;
mod types;
mod uses;

pub use body_uses::{exprs_uses, stmts_uses};
pub use header_uses::{decls_uses, places_know_final_types, walks_find_uses_of_headers};
pub use types::{begin_sig, declare_all, declare_option, sig_uses, type_option_uses, type_uses};
pub use uses::NameUses;
