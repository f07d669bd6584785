//! What expressions are, as operands of the rules: values, results of calls, types and functions; and
//! the values that operands stand for, one by one or as all results of one call (Go specification,
//! Expressions; Calls; Assignment statements).
#![tactic(auto)]

mod assigned;
pub mod checker_tables;
mod fits;
mod lists;
mod modes;
pub mod operand_answers;
pub mod operand_laws;
mod results;
mod spreads;

pub use assigned::{assigned_values, values_of};
pub use fits::takes;
pub use lists::ValueList;
pub use modes::{Operand, single, single_value};
pub use results::{results_operand, tuple_parts};
pub use spreads::values;
