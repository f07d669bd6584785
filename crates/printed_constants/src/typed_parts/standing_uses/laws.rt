//! The law of uses that stand once.

ghost use Rattle.printed_constants.specs.TypedParts.StandingUses.Laws.{ConstantStepsAreTold, ConstantUsesStandOnce};

use crate::typed_parts::standing_uses::import_uses::steps_swap_uses;

/// Where the files of a program read from their texts, a use of a constant that a step finds is a name, that of no
/// import, or a name behind a name, and stands once in its declaration, as import_uses asks.
pub fn constant_uses_stand_once()
    ensures { ConstantUsesStandOnce }
{}

/// So a step over a constant in such a program is told to `unused_imports`, which then finds exactly the imports that it
/// leaves unused, where the file of the use is typed before the step and with the form in its place.
pub fn constant_steps_are_told()
    ensures { ConstantStepsAreTold }
{
    steps_swap_uses();
}
