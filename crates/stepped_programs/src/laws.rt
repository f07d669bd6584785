//! Laws of programs after steps.

ghost use Rattle.stepped_programs.specs.Laws.{FoundUsesArePut, OriginsAreOfSteps, OriginsAreSwapped, StepsFillValues};
ghost use Rattle.stepped_programs.specs.Laws.{StepsKeepPrograms, StepsKeepSettled, StepsLeaveFlags};
ghost use Rattle.stepped_programs.specs.Laws.{StepsMayBePut};

use crate::stepped_values::{
    constants_stay_marked, settled_flags_stay, values_are_told_after_steps,
};
use member_uses::possible_uses::parts_are_among_all;

/// With the file of a step in its place all that is kept is that of the run's next program (`keep`); its table has what
/// the constants of the step's file are declared as after it, and of other files what it had (`values`).
pub fn steps_keep_programs()
    ensures keep { StepsKeepPrograms }
    ensures values { StepsFillValues }
{
    constants_stay_marked();
    values_are_told_after_steps();
}

/// The flags that are set then may stay set, where nothing but the declaration of the step is told anew (`flags`); so
/// files that are settled are so after a step over a name, where these may be searched (`settled`).
pub fn steps_keep_settled()
    ensures flags { StepsLeaveFlags }
    ensures settled { StepsKeepSettled }
{
    settled_flags_stay();
}

/// The parts of the declaration of a step come from where they did, but that those of the new name come from the use
/// (`swapped`); so what `step_origins` answers are the origins of the declaration after the step (`steps`), and what
/// `put_step` is told of the first use that a search finds is what the step makes (`found`). A dot may stand behind the
/// use, as in `C.M()`: a name behind a dot is a part whatever stands before it.
pub fn origins_are_swapped()
    ensures swapped { OriginsAreSwapped }
    ensures steps { OriginsAreOfSteps }
    ensures found { FoundUsesArePut }
{
    parts_are_among_all();
}

/// What `put_step` asks of its call holds of a step's file in a program, where the packages are linked after the step.
pub fn steps_may_be_put()
    ensures { StepsMayBePut }
{}
