//! Laws of steps in the bodies of functions, as a run makes them.

ghost use Rattle.literals_in_place.specs.StepsInBodies.Laws.{BodiesWithForms, BodiesWithFormsAreTyped};
ghost use Rattle.literals_in_place.specs.StepsInBodies.Laws.{FoundUsesStandOnce, FunctionsAroundLead};
ghost use Rattle.literals_in_place.specs.StepsInBodies.Laws.{ImportsStayUsed, LiteralsUseBlankAlike};
ghost use Rattle.literals_in_place.specs.StepsInBodies.Laws.{PackagesWithForms, TypedPartsUseNoBlank};
ghost use Rattle.literals_in_place.specs.StepsInBodies.Laws.{StepsInBodiesShowTheSame};

/// What a run makes of a body, with the form of a call in its place, is a body in which the form stands in the
/// place of the call, where that stands once in it and clear: in a statement, an operand, an argument, a literal of
/// a function or a deferred call, behind declarations. So it is in the packages of the run. Where the form has the
/// same facts to the rules of typing as the call, each body is typed as before.
pub fn steps_put_literals_in_bodies()
    ensures bodies { BodiesWithForms }
    ensures packages { PackagesWithForms }
    ensures typed { BodiesWithFormsAreTyped }
{}

/// What is typed and declares no constants doesn't use `_`, where that means nothing (Go specification, Blank
/// identifier). So a call and its literal use it alike: a body that is written at a call declares no constants.
pub fn typed_parts_use_no_blank()
    ensures parts { TypedPartsUseNoBlank }
    ensures literals { LiteralsUseBlankAlike }
{}

/// Where the function around is marked, and the one that is called, it leads to that one. After a step of a run that
/// puts a literal in the place of its call, in the body of a function, each import is used, where the one is that the
/// call may name its function by. So the step leaves packages that show the same, beside all further packages.
pub fn steps_in_bodies_show_the_same()
    ensures led { FunctionsAroundLead }
    ensures imports { ImportsStayUsed }
    ensures shown { StepsInBodiesShowTheSame }
{}

/// The use that a step of a run takes stands once in the body of the function around it, where the files of the
/// program read from their texts.
pub fn found_uses_stand_once()
    ensures { FoundUsesStandOnce }
{}
