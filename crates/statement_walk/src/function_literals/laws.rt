//! Laws of function literals in expressions.

ghost use Rattle.statement_walk.specs.FunctionLiterals.Laws.{RefusedInLists, RefusedLiterals};
ghost use Rattle.statement_walk.specs.FunctionLiterals.Laws.{TypedListsUseLiterals, TypedUseLiterals};

/// An expression isn't typed in which a function literal stands that isn't typed there, nor is a list with
/// such an expression: so the bodies of the literals in an expression may be walked before it (Go
/// specification, Function literals).
pub fn literals_refuse()
    ensures expressions { RefusedLiterals }
    ensures lists { RefusedInLists }
{}

/// An expression that is typed uses the names that the function literals in it use, as does a list of such
/// expressions: so these names may be used before the others (Go specification, Function literals;
/// Declarations and scope).
pub fn literals_are_used()
    ensures expressions { TypedUseLiterals }
    ensures lists { TypedListsUseLiterals }
{}
