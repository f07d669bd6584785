//! Laws of the places of uses.

ghost use Rattle.printed_constants.specs.TypedParts.StandingUses.UsePlaces.Laws.{FoundUsesTakeNames, UsesLieBehindImports};
ghost use Rattle.printed_constants.specs.TypedParts.StandingUses.UsePlaces.Laws.{UsesTakeNames};

/// No place of a use asks for more than the level of a name, so a name needs no parentheses there; nor
/// does that of the use that a step takes (Go specification, Operators; Primary expressions).
pub fn slots_take_names()
    ensures uses { UsesTakeNames }
    ensures found { FoundUsesTakeNames }
{}

/// What a step's form replaces stands behind the package name and the imports, where the file of the use
/// reads from its text (Go specification, Source file organization).
pub fn uses_lie_behind_imports()
    ensures behind { UsesLieBehindImports }
{}
