//! Lists of values.

use std::marker::Model;
use type_table::operand_rules::Value;

/// Values in their order.
#[derive(Drop)]
pub struct ValueList {
    pub items: Vec<Value>,
}

impl Model for ValueList {
    ghost use Rattle.std.specs.Prelude.{List};
    ghost use Rattle.type_table.specs.declared.operand_rules.values.Value as value;

    ghost Value = { List value.Value };

    ghost view = { λ a. a.items.items };
}
