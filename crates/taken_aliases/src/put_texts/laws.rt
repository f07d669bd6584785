//! Laws of steps over aliases of any type.

ghost use Rattle.taken_aliases.specs.PutTexts.Laws.{AliasTextsAddLed, AliasTextsNamePackages, AliasesBecomeTypes};
ghost use Rattle.taken_aliases.specs.PutTexts.Laws.{AliasesSettleFiles, TypesArePut, TypesArePutBySteps};
ghost use Rattle.taken_aliases.specs.PutTexts.Laws.{TypesSettleFiles};
ghost use Rattle.run_rules.specs.Run.{here_of};

/// In a file that reads from its text each well-formed type, whatever its shape, is put in the place
/// of a name of a type that is a node of the file, by the edit that writes it there: with one blank
/// before it where the token before and a `*` would be read as one.
pub fn types_are_put()
    ensures { TypesArePut here_of }
{}

/// A step over a name of a type that its declaration writes, not the type of a receiver, nor of a
/// composite literal in a header, which becomes a type, lays that out in the place of a node of its
/// file (`put`); so it settles its file, where what cycle_runs' `SettlesFile` asks besides holds
/// (`settle`).
pub fn types_are_put_by_steps()
    ensures put { TypesArePutBySteps }
    ensures settle { TypesSettleFiles }
{}

/// An alias becomes at such a use the type that it is declared as, if the names that the form has
/// for packages are identifiers (`shape`). The names are those of packages of the program, whatever
/// the use (`packages`), and the imports that the form adds are of packages that are led to (`led`). So
/// in a program whose packages can be written such a step settles its file (`settle`).
pub fn aliases_become_types()
    ensures shape { AliasesBecomeTypes }
    ensures packages { AliasTextsNamePackages }
    ensures led { AliasTextsAddLed }
    ensures settle { AliasesSettleFiles }
{}
