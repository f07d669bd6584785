//! Laws of runs and of the cycles of marked functions.

ghost use Rattle.order_runs.specs.CycleRuns.Laws.{ReadModulesAreLinked, StepsStayLinked, LinkedNamesByPath};
ghost use Rattle.order_runs.specs.CycleRuns.Laws.{StepsKeepImportLookUps, StepsKeepImportNames};
ghost use Rattle.order_runs.specs.CycleRuns.Laws.{StepsKeepCycles, RunsKeepCycles, ConstantStepsKeepCycles};
ghost use Rattle.order_runs.specs.CycleRuns.Laws.{AliasStepsKeepCycles, CallStepsKeepCycles};

use crate::cycle_runs::ordered_steps::read_modules_are_ordered;

/// The packages of a module that reads stand in dependency order, each under a path of its own; a step
/// whose added imports are led to, and whose file is settled as its text says, keeps that, and each
/// identifier is the name of the same import before and after. So is each name that is looked up, if no
/// import that goes has the name of one.
pub fn packages_stay_linked()
    ensures read { ReadModulesAreLinked }
    ensures stay { StepsStayLinked }
    ensures named { LinkedNamesByPath }
    ensures names { StepsKeepImportNames }
    ensures look_ups { StepsKeepImportLookUps }
{
    read_modules_are_ordered();
}

/// So such a step, whose form has the facts of what stood there and calls it, but that what was used
/// gives way, keeps which marked functions lie on a cycle; so does each run of such steps from files
/// that read as a module. Steps over constants and over aliases in types do, and over calls that become
/// expressions which call what stood there or what the function calls.
pub fn runs_keep_cycles()
    ensures kept { StepsKeepCycles }
    ensures runs { RunsKeepCycles }
    ensures constants { ConstantStepsKeepCycles }
    ensures aliases { AliasStepsKeepCycles }
    ensures calls { CallStepsKeepCycles }
{
    read_modules_are_ordered();
}
