//! Laws of steps over aliases as expressions, in any packages.

ghost use Rattle.alias_runs.specs.CalledAliases.Laws.{CalledFormsAreTypes, PlacedUsesMeanTheSame, PlacedUsesSwap};

/// A use of an alias as an expression, in whose way nothing stands and whose form needs no new
/// import, becomes the type that the alias is declared as, written as an expression at the use
/// (`form`), if the alias isn't declared as `*` before a type. In well-typed packages such a use, and
/// one as a written type, names the alias, and what is put is the alias's text there, before the step
/// and after it (`swaps`). So the packages after the step mean what those before do, where their
/// imports are right (`meaning`).
pub fn called_aliases_mean_the_same()
    ensures form { CalledFormsAreTypes }
    ensures swaps { PlacedUsesSwap }
    ensures meaning { PlacedUsesMeanTheSame }
{}
