//! What programs of Go's profile do when they run, and the laws of it.
//! `specs/` holds the definitions; the functions here have empty bodies, and their contracts are the laws.
#![tactic(auto)]

mod arguments;
mod budgets;
mod calls;
mod forms;
mod frames;
mod numbers;
mod parts;
mod primitives;

pub use arguments::{
    acting_argument_moves, call_moves_its_safe_set, careful_list_serves, looking_argument_moves,
    safe_set_moves, steady_argument_moves,
};
pub use budgets::{
    equal_free_shows_cover, free_prices_are_covered, free_prices_cover, larger_budgets_cover,
};
pub use calls::call_is_its_literal;
pub use forms::{
    body_is_block, deferred_call_is_its_literal, deferred_call_moves_its_safe_set,
    return_is_its_expression, tail_into_slots_is_block, tail_is_block,
};
pub use frames::{acts_behind, acts_in_front};
pub use numbers::{numbers_wrap, quotients_truncate};
pub use parts::parts_may_be_replaced;
pub use primitives::{constant_operands, table_of_primitives};
