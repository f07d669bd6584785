//! Laws of tables of types of values.

ghost use Rattle.type_table.specs.ValueTypes.Laws.{NoRowsAreValueTypes, ValueTypesStay};

/// A table without types has types of values alone, and keeps that when a type of values is added.
pub fn tables_of_value_types()
    ensures none { NoRowsAreValueTypes }
    ensures stay { ValueTypesStay }
{}
