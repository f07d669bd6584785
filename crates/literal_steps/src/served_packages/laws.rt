//! Laws of the packages that a marked function names.

ghost use Rattle.literal_steps.specs.ServedPackages.Laws.{CompositeLiteralsAreSeen, ExportedFieldsAreSeen};
ghost use Rattle.literal_steps.specs.ServedPackages.Laws.{FunctionsAreOpen, ProgramsAreOpen};
ghost use Rattle.literal_steps.specs.ServedPackages.Laws.{NamedPackagesAreNeeded, NamedPackagesServe};
ghost use Rattle.literal_steps.specs.ServedPackages.Laws.{OwnPackageServes, ServedCallsMeanTheirLiterals};
ghost use Rattle.literal_steps.specs.ServedPackages.Laws.{ServedDeferredCallsMeanTheirLiterals};
ghost use Rattle.literal_steps.specs.ServedPackages.Laws.{ServedLiteralsAreTypedAlike};

/// Whatever a program declares, each exported field in its types belongs to no package alone. So each
/// exported field of a value in it is seen everywhere, and a typed composite literal that sets no hidden
/// field is seen alike from each package; around each part of a marked function names mean such types.
pub fn exported_fields_are_seen()
    ensures programs { ProgramsAreOpen }
    ensures fields { ExportedFieldsAreSeen }
    ensures literals { CompositeLiteralsAreSeen }
    ensures functions { FunctionsAreOpen }
{}

/// Each package that a function names in its signature or its body, by an import or, for a use in
/// another package, as its own, is among those that the literal of a use asks a name for, if the body
/// declares no group of constants.
pub fn named_packages_are_needed()
    ensures needed { NamedPackagesAreNeeded }
{}

/// So where the literal of a use needs no import that isn't there, each package that the function names
/// has a name that serves at the use: those of its imports, and its own for a use in another package.
pub fn named_packages_serve()
    ensures served { NamedPackagesServe }
    ensures own { OwnPackageServes }
{}

/// In well-typed packages a call that becomes a literal and needs no import that isn't there is typed as
/// the literal, and means it under free prices; deferred, it means the deferred literal.
pub fn served_calls_mean_their_literals()
    ensures typed { ServedLiteralsAreTypedAlike }
    ensures meaning { ServedCallsMeanTheirLiterals }
    ensures deferred { ServedDeferredCallsMeanTheirLiterals }
{}
