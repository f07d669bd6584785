//! Laws of the parts of typed statements and expressions.

ghost use Rattle.printed_constants.specs.TypedParts.Laws.{TypedListsHaveTypedParts, TypedStatementsHaveTypedParts};
ghost use Rattle.printed_constants.specs.TypedParts.Laws.{WellTypedProgramsHaveTypedParts};

/// Each part of typed statements, and of typed expressions, that the walk over places lists is typed
/// where it stands, groups of constants and literals of functions included (Go specification,
/// Expressions; Statements).
pub fn typed_bodies_have_typed_parts()
    ensures statements { TypedStatementsHaveTypedParts }
    ensures lists { TypedListsHaveTypedParts }
{}

/// So is each part of each declaration of a well-typed program whose packages stand in dependency order
/// (Go specification, Declarations and scope).
pub fn well_typed_programs_have_typed_parts()
    ensures parts { WellTypedProgramsHaveTypedParts }
{}
