//! Laws of steps and runs over constants at the places that their uses have with the imports added.

ghost use Rattle.printed_constants.specs.TypedParts.MarkedRuns.TakenNames.Laws.{ImportingStepsTakeNames, RunsMeanTheSame};
ghost use Rattle.printed_constants.specs.TypedParts.MarkedRuns.TakenNames.Laws.{RunsOverConstantsKeep};
ghost use Rattle.printed_constants.specs.TypedParts.MarkedRuns.TakenNames.Laws.{StepsKeepTheProgram, StepsStayReady, StepsStayTyped};

use crate::typed_parts::marked_runs::ready_modules::read_modules_are_ready;
use crate::typed_parts::marked_runs::settled_constants::{constants_keep_cycles, constants_settle};

/// A step of a run over a constant that is declared as a name leaves packages that are one program with those before,
/// also where its imports put the packages in another order; so it leaves well-typed packages, and the last program of
/// a run of such steps means what the first does. What names mean at a place is told with it, so it is another place
/// once imports are added; a step that import_runs speaks of is such a step.
pub fn names_are_taken()
    ensures old { ImportingStepsTakeNames }
    ensures steps { StepsKeepTheProgram }
    ensures typed { StepsStayTyped }
    ensures runs { RunsMeanTheSame }
{}

/// So such a step that writes its file, in a program that is ready and well typed, leaves such a program; and a run of
/// such steps over constants from a module that reads keeps typing, which marked functions lie on a cycle, and the
/// meaning.
pub fn runs_over_constants_keep()
    ensures step { StepsStayReady }
    ensures runs { RunsOverConstantsKeep }
{
    read_modules_are_ready();
    constants_settle();
    constants_keep_cycles();
}
