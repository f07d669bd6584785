//! The law of steps over marked constants.

ghost use Rattle.printed_constants.specs.TypedParts.MarkedRuns.KeptMarks.Laws.{NamedStepsAreOver, StepsKeepNamed};

use crate::typed_parts::marked_runs::settled_constants::constants_settle;

/// Where each mark is that of a constant that is declared as a name, a step over an expression is over a use of one,
/// and leaves a program in which each mark is that of such a constant again: also where the use stands in the
/// declaration of a marked constant, whose name is then that of an import of its file.
pub fn marks_stay_named()
    ensures over { NamedStepsAreOver }
    ensures stay { StepsKeepNamed }
{
    constants_settle();
}
