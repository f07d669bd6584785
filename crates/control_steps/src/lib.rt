//! What simple statements, and the headers of others, give of the answers for their expressions:
//! conditions, calls that are statements, `defer` and `return` (Go specification, Statements).
#![tactic(auto)]

mod body_steps;
mod calls;
mod conditions;
mod declaration_steps;
mod label_steps;
mod local_blocks;
mod panics;
mod refused;
mod returns;
mod right_sides;
mod switch_steps;

pub use body_steps::is_body;
pub use calls::{defer_statement, expression_statement, may_be_deferred, stands_alone};
pub use conditions::{condition, test};
pub use declaration_steps::{
    Declares, EntityList, declared_entities, declared_entity, may_declare, zero_entities,
};
pub use label_steps::labelled_statement;
pub use local_blocks::{LocalBlock, blocks_are_seen_alike};
pub use panics::is_panic;
pub use refused::{ends_if, unmet};
pub use returns::{Body, return_statement};
pub use right_sides::right_values;
pub use switch_steps::{are_cases, tag};
