//! Laws of uses of aliases among the packages of a run.

ghost use Rattle.alias_runs.specs.AliasSites.Laws.{AliasesAreFirst, PlainNamesNameAliases};
ghost use Rattle.alias_runs.specs.AliasSites.Laws.{PlainUsesNameAliases};
ghost use Rattle.alias_runs.specs.AliasSites.Laws.{PlainTypeUsesMeanTheSame, PlainTypeUsesSwap};

/// What a name of a package block means among packages, where it is an alias, is declared by the
/// first header of the package that has the name, as an alias of the same text. Where no import has
/// the names, the name names that alias, and the name that it is declared as is its text; so it is
/// of each plain use.
pub fn aliases_are_declared_first()
    ensures first { AliasesAreFirst }
    ensures names { PlainNamesNameAliases }
    ensures uses { PlainUsesNameAliases }
{}

/// At a plain use of an alias as a written type, what stands at its span before the step and after
/// it are uses of the alias, in all packages that hold its own, and beside all further ones; so the
/// packages after the step mean what those before do, where their imports are right.
pub fn plain_type_uses_mean_the_same()
    ensures swaps { PlainTypeUsesSwap }
    ensures meaning { PlainTypeUsesMeanTheSame }
{}
