//! Laws of runs over marked constants and aliases.

ghost use Rattle.taken_aliases.specs.MixedRuns.Laws.{AliasesSettle, MarksOfNoFunctionsLieOnNoCycle, RunsOverNamesKeep};
ghost use Rattle.taken_aliases.specs.MixedRuns.Laws.{StepsKeepNoFunctions};

use crate::{aliases_are_taken, steps_stay_ready};
use printed_constants::typed_parts::marked_runs::{
    added_imports_may_be_declared, constants_settle, programs_are_ready, read_modules_are_ready,
};

/// In a program that is ready a step over an alias of any type settles its file: where the use is a
/// written type, or what is called in a conversion, with nothing else asked of its form or its imports.
pub fn aliases_settle()
    ensures { AliasesSettle }
{
    programs_are_ready();
}

/// Where no mark is of a function, no marked function lies on a cycle (`cycles`), and none is of a
/// function after a step (`stay`). A run over marked constants and aliases, from a module that reads
/// and is well typed, keeps typing, which marked functions lie on a cycle, and the meaning (`runs`).
pub fn runs_over_names_keep()
    ensures cycles { MarksOfNoFunctionsLieOnNoCycle }
    ensures stay { StepsKeepNoFunctions }
    ensures runs { RunsOverNamesKeep }
{
    added_imports_may_be_declared();
    constants_settle();
    programs_are_ready();
    read_modules_are_ready();
    aliases_are_taken();
    steps_stay_ready();
}
