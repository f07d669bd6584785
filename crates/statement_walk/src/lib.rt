//! The walk over statements: declarations of variables in a function, and the names that they and
//! expressions use (Go specification, Declarations and scope; Variable declarations; Short variable
//! declarations).
#![tactic(auto)]

mod begins;
mod constants;
mod function_literals;
mod groups;
mod laws;
mod literal_types;
mod parts;
mod range_steps;
mod shorts;
mod simple_walk;
mod uses;
mod values;
mod variables;
mod walked_uses;

pub use assignment_steps::declare_entities;
pub use constants::{constant_group, constant_part};
pub use expr_walk::{all_exprs_at, expr_at};
pub use function_literals::{
    end_params, find_in_all, find_literals, literal_body, literal_operand, literals_are_used,
    literals_refuse, param_part, signature,
};
pub use groups::variable_group;
pub use laws::constants_use_alike;
pub use parts::{short_part, spec_part};
pub use range_steps::{
    CasesSeen, RangeTypes, assigns, case_values, range_types, range_variables, ranges_over,
};
pub use shorts::define_statement;
pub use simple_walk::{
    has_none, own_or_repeated, repeated_member, simple_statement, targets, written_type,
};
pub use variables::variable_spec;
pub use walked_uses::{use_expr, use_expr_at, use_exprs, use_exprs_at};
