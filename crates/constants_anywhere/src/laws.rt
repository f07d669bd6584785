//! Laws of steps over constants in declarations of every form.

ghost use Rattle.constants_anywhere.specs.Laws.{KnownPartsKeepImports, KnownPartsMeanConstants};
ghost use Rattle.constants_anywhere.specs.Laws.{KnownPartsMeanTheSame, RunsAnywhereMeanTheSame};
ghost use Rattle.constants_anywhere.specs.Laws.{SimplePartsAreKnown, StepsLinkThePackages};
ghost use Rattle.constants_anywhere.specs.Laws.{TypedPartsAreKnown, UsesAnywhereKeepImports};
ghost use Rattle.constants_anywhere.specs.Laws.{UsesAnywhereMeanConstants, UsesAnywhereMeanTheSame};

/// At a use of a constant in its own package, in a declaration of any form whose parts are known, both
/// names mean one constant that is known, before the step and after it. The imports stay right, the
/// packages after are linked as those with the form, and mean what those before do.
pub fn known_parts_mean_the_same()
    ensures uses { KnownPartsMeanConstants }
    ensures imports { KnownPartsKeepImports }
    ensures linked { StepsLinkThePackages }
    ensures meaning { KnownPartsMeanTheSame }
{}

/// Simple parts are known, and in a well-typed program all parts are, with literals of functions and
/// composite types, and groups of constants of which a member repeats another.
pub fn parts_are_known()
    ensures simple { SimplePartsAreKnown }
    ensures typed { TypedPartsAreKnown }
{}

/// So at a use of a constant in a declaration with literals and such groups both names mean one
/// constant that is known, the imports stay right, and the packages after the step mean what those
/// before do, as do those after any number of such steps.
pub fn uses_anywhere_mean_the_same()
    ensures uses { UsesAnywhereMeanConstants }
    ensures imports { UsesAnywhereKeepImports }
    ensures meaning { UsesAnywhereMeanTheSame }
    ensures runs { RunsAnywhereMeanTheSame }
{}
