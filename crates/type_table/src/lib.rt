//! Types as numbers: each type is a row of one table, whose parts are rows before it (Go
//! specification, Types; Type identity).
#![tactic(auto)]

mod laws;
mod nodes;
pub mod operand_rules;
mod same;
mod table;
pub mod type_relations;
pub mod value_types;

pub use laws::rows_stand_for_types;
pub use nodes::{Field, FieldList, TypeId, TypeIdList, TypeNode};
pub use table::TypeTable;
