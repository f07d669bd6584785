//! Uses of marked constants in typed programs: laws alone, without code (Go specification, Types; Operands).

mod laws;

pub use laws::{
    constant_uses_are_expressions, first_uses_are_typed_before, first_uses_use_constants,
    steps_are_over_names, steps_use_expressions, steps_use_members,
};
