//! The laws of names that are told.

ghost use Rattle.call_qualifiers.specs.Laws.{AliasesAreTold, FunctionsAreTold};

/// What is told right of the names of a function's declaration is told right of its signature and of its body, as
/// `literal_form` asks (Go specification, Function declarations).
pub fn functions_are_told()
    ensures { FunctionsAreTold }
{}

/// What is told right of the names of a type declaration is told right of the type of each alias in it, as `alias_type`
/// and `alias_expr` ask (Go specification, Alias declarations).
pub fn aliases_are_told()
    ensures { AliasesAreTold }
{}
