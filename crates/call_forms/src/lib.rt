//! What a call of a marked function becomes: a literal of the function, called in place.
#![tactic(auto)]

mod aliases;
mod exprs;
mod literal;
mod qualifiers;
mod stmts;
mod types;

pub use aliases::{alias_expr, alias_type};
pub use exprs::written_expr;
pub use literal::literal_form;
pub use qualifiers::{Qualifiers, There};
pub use stmts::written_block;
pub use types::{written_sig, written_type};
