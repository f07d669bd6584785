//! Laws of steps over constants that are declared as names, in declarations of every form.

ghost use Rattle.constant_modules.specs.NamedAnywhere.Laws as law;

/// Simple parts are known, and in a well-typed program all parts are, with literals of functions and composite types,
/// and groups of constants of which a member repeats another.
pub fn named_parts_are_known()
    ensures simple { law.SimpleNamedPartsAreKnown }
    ensures typed { law.TypedNamedPartsAreKnown }
{}

/// At a use of a constant that is declared as a name, in a declaration of any form whose parts are known, the form is
/// another name of it; both names mean one constant that is known, before the step and after it. The imports stay
/// right where the file still uses those of the two names, the packages after are linked as those with the form, and
/// mean what those before do.
pub fn known_named_parts_mean_the_same()
    ensures form { law.NamedFormsAreNames }
    ensures uses { law.KnownNamedPartsMeanConstants }
    ensures imports { law.KnownNamedPartsKeepImports }
    ensures linked { law.NamedStepsAnywhereLink }
    ensures meaning { law.KnownNamedPartsMeanTheSame }
{}

/// So in a well-typed program at such a use, in a declaration with literals and groups of constants, both names mean
/// one constant that is known, the imports stay right, and the packages after the step mean what those before do, as
/// do those after any number of such steps.
pub fn named_uses_anywhere_mean_the_same()
    ensures uses { law.NamedUsesAnywhereMeanConstants }
    ensures imports { law.NamedUsesAnywhereKeepImports }
    ensures meaning { law.NamedUsesAnywhereMeanTheSame }
    ensures runs { law.NamedRunsAnywhereMeanTheSame }
{}
