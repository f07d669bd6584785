//! Laws of tables that grow.

ghost use Rattle.operator_rules.specs.Growth.{NoRowsHaveParts, PartsStay};
ghost use Rattle.operator_rules.specs.Kept.{BasicTypesStay, GrowsOn, ValuesMeanTheSame, ValuesStay};

/// Constants that are added leave values as they are, in type, content and being there; types that
/// are added leave the predeclared ones where they are.
pub fn tables_may_grow()
    ensures values { ValuesStay }
    ensures meaning { ValuesMeanTheSame }
    ensures on { GrowsOn }
    ensures basics { BasicTypesStay }
{}

/// A table without types has no part that isn't a type of values, and a type whose parts are types
/// of values may be added.
pub fn parts_are_types_of_values()
    ensures none { NoRowsHaveParts }
    ensures stay { PartsStay }
{}
