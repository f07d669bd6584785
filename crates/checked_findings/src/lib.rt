//! What is found of a checked package: of each expression its place, its type there and its constant.
//! Definitions and laws alone, without code (Go specification, Expressions; Constants; Constant
//! expressions).
#![tactic(auto)]

mod laws;

pub use laws::{
    each_is_found_at_its_place, findings_move_with_their_trees, findings_need_no_spans,
    findings_of_read_files_ascend, found_alike_where_free_names_mean_the_same,
};
