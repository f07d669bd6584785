//! Laws of what code is told of a step.

ghost use Rattle.printed_constants.specs.TypedParts.StandingUses.ToldSteps.Laws.{FirstUsesAreTold, StepsMayBeEdited};

use crate::typed_parts::standing_uses::import_uses::steps_swap_uses;
use crate::typed_parts::standing_uses::use_places::{slots_take_names, uses_lie_behind_imports};

/// The first use of a constant that becomes a form is told to `unused_imports`, which then finds exactly the imports
/// that the step leaves unused, where the file of the use is typed before the step and with the form in its place.
pub fn first_uses_are_told()
    ensures { FirstUsesAreTold }
{
    steps_swap_uses();
}

/// Where the files of a program read from their texts, `step_edits` may be called for the first use that becomes a
/// form, and gives the edits of the run's step.
pub fn steps_may_be_edited()
    ensures { StepsMayBeEdited }
{
    slots_take_names();
    uses_lie_behind_imports();
}
