//! Laws of typing in place.

ghost use Rattle.typed_in_place.specs.Laws.{OperandsStay, PlacesStay, DeclarationsStay};
ghost use Rattle.typed_in_place.specs.Laws.{StatementsStay, BodiesStay, UsesStay};
ghost use Rattle.typed_in_place.specs.Laws.{ExpressionsButForSpans, StatementsButForSpans};
ghost use Rattle.typed_in_place.specs.Laws.{AliasesSettle, TypesSettle, NamesSettle, ValuesSettle};
ghost use Rattle.typed_in_place.specs.Laws.{AliasesAreLeast, TypesAreGreatest, NamesAreLeast, ValuesAreGreatest};
ghost use Rattle.typed_in_place.specs.Laws.{ConstantsWithoutBodies, VariablesWithoutBodies};
ghost use Rattle.typed_in_place.specs.Laws.{ConstantStands, AliasStands, CalledAliasStands};
ghost use Rattle.typed_in_place.specs.Laws.{LiteralStands, LiteralIsFunction};
ghost use Rattle.typed_in_place.specs.Laws.{WellTypedApart, ImportsAreSoundAndUsed, FewerAreSound};
ghost use Rattle.typed_in_place.specs.Laws.{FreshIsSound, UsedAsBefore};
ghost use Rattle.typed_in_place.specs.Laws.{MovedAliases, MovedTypes, MovedValues, MovedBodies};
ghost use Rattle.typed_in_place.specs.Laws.{DeclaresTheSame, StaysWellTyped, WellTypedAsBefore};
ghost use Rattle.typed_in_place.specs.Laws.{DeclaresTheSameBeside, StaysWellTypedBeside};

/// A tree in which parts are replaced by others with the same facts is typed as it was.
pub fn typed_alike_after_a_replacement()
    ensures operands { OperandsStay }
    ensures places { PlacesStay }
    ensures declarations { DeclarationsStay }
    ensures statements { StatementsStay }
    ensures bodies { BodiesStay }
    ensures uses { UsesStay }
{}

/// Trees that are equal but for spans have the same facts.
pub fn the_same_but_for_spans()
    ensures expressions { ExpressionsButForSpans }
    ensures statements { StatementsButForSpans }
{}

/// The rounds in which it is found what packages declare end: a further round changes nothing.
pub fn rounds_settle()
    ensures aliases { AliasesSettle }
    ensures types { TypesSettle }
    ensures names { NamesSettle }
    ensures values { ValuesSettle }
{}

/// They find the least that holds of the headers, name by name, and refuse no type and no whole header
/// that need not be refused.
pub fn rounds_find_the_least()
    ensures aliases { AliasesAreLeast }
    ensures types { TypesAreGreatest }
    ensures names { NamesAreLeast }
    ensures values { ValuesAreGreatest }
{}

/// What constants and variables of packages are declared as is found without typing a body.
pub fn declared_without_bodies()
    ensures constants { ConstantsWithoutBodies }
    ensures variables { VariablesWithoutBodies }
{}

/// What a name is declared as stands for the name: for a constant the name of another, for an
/// alias its type's text, for a function a literal with its signature and body.
pub fn declarations_stand_for_names()
    ensures constant { ConstantStands }
    ensures alias { AliasStands }
    ensures called_alias { CalledAliasStands }
    ensures literal { LiteralStands }
    ensures function { LiteralIsFunction }
{}

/// Imports apart from all else: when they are right, with some gone, with a fresh one, and which
/// are used after parts are replaced.
pub fn imports_apart()
    ensures apart { WellTypedApart }
    ensures sound_and_used { ImportsAreSoundAndUsed }
    ensures fewer { FewerAreSound }
    ensures fresh { FreshIsSound }
    ensures used { UsedAsBefore }
{}

/// A declaration under other imports of its file stands for itself, where each name that it looks
/// up means what it meant.
pub fn declarations_under_other_imports()
    ensures aliases { MovedAliases }
    ensures types { MovedTypes }
    ensures values { MovedValues }
    ensures bodies { MovedBodies }
{}

/// A program with parts in the place of others declares the same and stays well typed, if its
/// imports are right again; so does every list of further packages beside it.
pub fn well_typed_after_a_replacement()
    ensures declared { DeclaresTheSame }
    ensures well_typed_program { StaysWellTyped }
    ensures well_typed_as_before { WellTypedAsBefore }
    ensures declared_beside { DeclaresTheSameBeside }
    ensures well_typed_beside { StaysWellTypedBeside }
{}
