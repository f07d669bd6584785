//! Laws of steps that put a literal in the place of its call, and of the imports of its file.

ghost use Rattle.literal_imports.specs.Laws.{KeepingStepsAreLiteralSteps, KeepingStepsKeepPrograms};
ghost use Rattle.literal_imports.specs.Laws.{SettlingStepsKeepPrograms};

/// In a well-typed program a step that puts a literal in the place of its call and removes no import leaves each import
/// used as typing counts it, so it is a step as literals_in_place has it. In no group of constants that the file
/// declares may a member without values have a type.
pub fn keeping_steps_are_literal_steps()
    ensures { KeepingStepsAreLiteralSteps }
{}

/// So the program is well typed after such a step, and shows the same.
pub fn keeping_steps_keep_programs()
    ensures { KeepingStepsKeepPrograms }
{}

/// So it is after a step that removes the imports that the call's file doesn't use any more, in the packages without
/// them. None of these may have the name of a predeclared value, and with the literal in the call's place the
/// declarations of the file have to be well formed.
pub fn settling_steps_keep_programs()
    ensures { SettlingStepsKeepPrograms }
{}
