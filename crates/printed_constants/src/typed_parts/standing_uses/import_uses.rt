//! The law of what a step changes of the uses of imports.

ghost use Rattle.printed_constants.specs.TypedParts.StandingUses.ImportUses.Steps.{StepsSwapUses};

use member_uses::possible_uses::parts_are_among_all;

/// Before a step over a use of a constant its file uses an import where some of its parts do, and once the form is in the
/// place of the use, where the parts and the form use it more often than the use did (Go specification, Import
/// declarations). So `unused_imports` finds the imports that the step leaves unused.
pub fn steps_swap_uses()
    ensures { StepsSwapUses }
{
    parts_are_among_all();
}
