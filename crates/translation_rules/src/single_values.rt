//! Laws of numbers of values in packages.

ghost use Rattle.translation_rules.specs.SingleValues.Laws.{ValuesAreSingle};

/// In the program of well-typed packages with distinct paths and numbers, whatever a name means where an expression
/// stands is there, so the term of each value gives one value, that of each call as many as its type says, and those of
/// an assignment, a declaration or a `return` as many as the places that they are for.
pub fn values_are_single_everywhere()
    ensures packages { ValuesAreSingle }
{}
