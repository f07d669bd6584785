//! Laws of steps over constants that are declared as names, in any package.

ghost use Rattle.constant_steps.specs.QualifiedSteps.Laws.{FormsAreNames, FormsAreStillUsed};
ghost use Rattle.constant_steps.specs.QualifiedSteps.Laws.{MarkedConstantsAreNames, NamedMembersAreMeant};
ghost use Rattle.constant_steps.specs.QualifiedSteps.Laws.{NamedRunsMeanTheSame, NamedStepsKeepImports};
ghost use Rattle.constant_steps.specs.QualifiedSteps.Laws.{NamedStepsLinkThePackages, NamedStepsMeanTheSame};
ghost use Rattle.constant_steps.specs.QualifiedSteps.Laws.{NamedUsesMeanConstants, OwnUsesKeepImports};
ghost use Rattle.constant_steps.specs.QualifiedSteps.Laws.{UsedElsewhereStays, UsesNameMembers};

/// What a qualified name, or a name of the package block, means among packages is what the rules
/// of typing say that it means. What a run finds as a use of a marked constant is such a name of
/// it, and a mark holds for no constant but one that is declared as such a name.
pub fn named_members_are_meant()
    ensures members { NamedMembersAreMeant }
    ensures found { UsesNameMembers }
    ensures marked { MarkedConstantsAreNames }
{}

/// A use of a constant that is declared, without a type, as the name of another constant, in whose
/// way nothing stands, becomes that name as it is written at the use (`form`), and means it, before
/// the step and after it. The form's import is in use after the step (`used`), and so is what other
/// declarations use (`elsewhere`). So the packages after the step mean what those before do, if
/// the imports stay used, and so do those after any number of such steps.
pub fn named_constants_mean_the_same()
    ensures form { FormsAreNames }
    ensures uses { NamedUsesMeanConstants }
    ensures imports { NamedStepsKeepImports }
    ensures used { FormsAreStillUsed }
    ensures elsewhere { UsedElsewhereStays }
    ensures own { OwnUsesKeepImports }
    ensures meaning { NamedStepsMeanTheSame }
    ensures linked { NamedStepsLinkThePackages }
    ensures runs { NamedRunsMeanTheSame }
{}
