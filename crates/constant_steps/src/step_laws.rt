//! Laws of one step over a constant.

ghost use Rattle.constant_steps.specs.StepLaws.Laws.{AnsweredBodiesStand, AnsweredExpressionsStand};
ghost use Rattle.constant_steps.specs.StepLaws.Laws.{HeadersAreTyped, NamesAroundAreKnown, RunsMeanTheSame};
ghost use Rattle.constant_steps.specs.StepLaws.Laws.{NamesEndAlike};
ghost use Rattle.constant_steps.specs.StepLaws.Laws.{DeclarationsWithUsesKeepTheirCode};
ghost use Rattle.constant_steps.specs.StepLaws.Laws.{DeclarationsWithUsesStand, NamesOutsideHold};
ghost use Rattle.constant_steps.specs.StepLaws.Laws.{UsesMeanOneConstant};
ghost use Rattle.constant_steps.specs.StepLaws.Laws.{StepKeepsTheCode, StepMeansTheSame, StepStaysInPlace};
ghost use Rattle.constant_steps.specs.StepLaws.Laws.{StepsOverUses};
ghost use Rattle.constant_steps.specs.StepLaws.Laws.{StepsCompose, UsesOfConstantsStand, ValuesEndAlike};
ghost use Rattle.constant_steps.specs.StepLaws.Laws.{UsesAreNotLocal, UsesAreOfKnownConstants};
ghost use Rattle.constant_steps.specs.StepLaws.Laws.{UsesMeanTheSame};
ghost use Rattle.constant_steps.specs.StepLaws.Laws.{WalkedBodies, WalkedExpressions};

/// Where all that the replacing walk puts has the same facts, what it makes of a part is that part
/// with parts replaced by parts with the same facts; so it is typed alike.
pub fn walks_replace_in_place()
    ensures expressions { WalkedExpressions }
    ensures bodies { WalkedBodies }
{}

/// Where each place that the walk lists is answered, what the walk makes of it stands; and names that
/// a declaration doesn't declare mean throughout what they mean at the top of the file.
pub fn answered_places_stand()
    ensures expressions { AnsweredExpressionsStand }
    ensures bodies { AnsweredBodiesStand }
    ensures outside { NamesOutsideHold }
    ensures known { NamesAroundAreKnown }
    ensures free { UsesAreNotLocal }
{}

/// A name of a constant and a name of what the constant is declared as have the same facts, once the
/// rounds of declarations have ended.
pub fn uses_of_constants_stand()
    ensures facts { UsesOfConstantsStand }
    ensures names { NamesEndAlike }
    ensures ends { ValuesEndAlike }
    ensures declarations { DeclarationsWithUsesStand }
    ensures code { DeclarationsWithUsesKeepTheirCode }
    ensures one { UsesMeanOneConstant }
    ensures headers { HeadersAreTyped }
    ensures known { UsesAreOfKnownConstants }
{}

/// A use of a constant that becomes another name of it leaves the program in place, and its
/// kernel program equal, beside all further packages; so the packages mean the same.
pub fn step_over_a_constant_means_the_same()
    ensures steps { StepsOverUses }
    ensures in_place { StepStaysInPlace }
    ensures code { StepKeepsTheCode }
    ensures meaning { StepMeansTheSame }
    ensures uses { UsesMeanTheSame }
    ensures runs { RunsMeanTheSame }
    ensures composed { StepsCompose }
{}
