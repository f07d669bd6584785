//! The law of what constants are declared as.

ghost use Rattle.printed_constants.specs.DeclaredMembers.Laws.{ConstantsNameMembers};

/// In a well-typed program each of whose packages stands in the dependency order, a constant that is declared as a name
/// alone is declared as a name of its package block, or a predeclared one: what is typed means something, and the name
/// of an import is no value (Go specification, Constant declarations; Qualified identifiers).
pub fn constants_name_members()
    ensures { ConstantsNameMembers }
{}
