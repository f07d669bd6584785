//! Laws of steps over aliases as written types, in any packages.

ghost use Rattle.alias_runs.specs.QualifiedAliases.Laws.{AliasUsesMeanTheSame, AliasUsesSwap};
ghost use Rattle.alias_runs.specs.QualifiedAliases.Laws.{FormsAreTypes, ImportsAreSound};

/// A use of an alias as a written type, in whose way nothing stands and whose form needs no new
/// import, becomes the type that the alias is declared as, written at the use (`form`). Before the
/// step and after it, it names the alias, and the type is the alias's text there, in all packages
/// with distinct numbers that hold those of the use and of the alias (`swaps`), if the imports of
/// their files may be declared, as they may in well-typed packages (`imports`). So the packages after
/// the step mean what those before do, where their imports are right.
pub fn aliases_in_any_package_mean_the_same()
    ensures form { FormsAreTypes }
    ensures imports { ImportsAreSound }
    ensures swaps { AliasUsesSwap }
    ensures meaning { AliasUsesMeanTheSame }
{}
