//! The rules over operands: what operators, conversions and other constructs give, by the types and
//! the constants of their operands (Go specification, Expressions; Constants).

mod bounds;
mod calculations;
mod common;
mod constants;
mod conversions;
mod fitting;
mod folding;
mod kinds;
mod literals;
mod shifts;
mod unary;
mod values;

pub use bounds::both_exact;
pub use calculations::{arithmetic, binary_applies};
pub use common::{common_type, joins};
pub use constants::{ConstId, ConstTable, MAX_CONST_BYTES};
pub use conversions::conversion;
pub use fitting::{fits, has_nil};
pub use folding::folded;
pub use kinds::{
    is_number_kind, is_text_kind, is_truth_kind, is_whole_number, kind_of, under_kind,
};
pub use literals::literal;
pub use shifts::shifting;
pub use unary::unary_value;
pub use values::{Bounds, Content, Refusal, Value, ValueType};
