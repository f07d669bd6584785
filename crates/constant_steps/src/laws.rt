//! Laws of steps over constants.

ghost use Rattle.constant_steps.specs.Laws.{ConstantStepsMeanTheSame, DeclarationsAreFirst};
ghost use Rattle.constant_steps.specs.Laws.{PlainStepsKeepImports};
ghost use Rattle.constant_steps.specs.Laws.{PlainRunsMeanTheSame, PlainUsesBecomeNames};
ghost use Rattle.constant_steps.specs.Laws.{PlainUsesMeanConstants};
ghost use Rattle.constant_steps.specs.Laws.{PlainStepsLinkThePackages, UnshadowedMembersStay};

/// What a name of a package block means among packages is declared by the first header of the package
/// that has the name. A name that isn't shadowed at a use in its own package means the same member there
/// as where it is written.
pub fn declarations_are_first()
    ensures first { DeclarationsAreFirst }
    ensures unshadowed { UnshadowedMembersStay }
{}

/// A use of a constant in its own package, which is declared as another constant of the package, and
/// in whose way nothing stands, becomes that constant's name (`form`), and means it, before the step
/// and after it. The imports stay right. So the packages after the step mean what those before do, and
/// so do those after any number of such steps.
pub fn constant_steps_mean_the_same()
    ensures form { PlainUsesBecomeNames }
    ensures uses { PlainUsesMeanConstants }
    ensures imports { PlainStepsKeepImports }
    ensures meaning { ConstantStepsMeanTheSame }
    ensures linked { PlainStepsLinkThePackages }
    ensures runs { PlainRunsMeanTheSame }
{}
