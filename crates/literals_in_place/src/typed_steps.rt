//! Laws of steps in the bodies of functions of well-typed packages.

ghost use Rattle.literals_in_place.specs.TypedSteps.Laws.{CallsStandClear, CallsStandInTheirFiles};
ghost use Rattle.literals_in_place.specs.TypedSteps.Laws.{LiteralStepsKeepPrograms, PackagesOfCallsServe};
ghost use Rattle.literals_in_place.specs.TypedSteps.Laws.{TypedStepsShowTheSame};

/// In well-typed packages, where the call of a function that becomes its literal stands once in a body, and in no
/// group of variables: names from outside the body mean there what they do in its file, and each package of the
/// literal has a name that serves; no other call calls it, nor is it in a constant's value. The literal may need no
/// import that isn't there.
pub fn typing_clears_uses()
    ensures called { CallsStandInTheirFiles }
    ensures served { PackagesOfCallsServe }
    ensures clear { CallsStandClear }
{}

/// So the step that puts the literal in the call's place leaves packages that show the same, beside all further
/// packages.
pub fn typed_steps_show_the_same()
    ensures { TypedStepsShowTheSame }
{}

/// So a whole program that is well typed is so after a step that puts a literal in the place of its call, which has no
/// obstacle, and shows the same.
pub fn literal_steps_keep_programs()
    ensures { LiteralStepsKeepPrograms }
{}
