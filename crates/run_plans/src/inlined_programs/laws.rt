//! Laws of steps and of runs.

ghost use Rattle.run_plans.specs.InlinedPrograms.Laws.{LimitsStopRuns, LoadedProgramsBeginRuns, SettledProgramsEndRuns};
ghost use Rattle.run_plans.specs.InlinedPrograms.Laws.{StepsAreLogged, StepsMayBeTaken, StoppedRunsAreTooLarge};
ghost use Rattle.run_plans.specs.InlinedPrograms.Laws.{TakenStepsComeNext, TakenStepsKeepBlocks};

use constant_modules::constant_programs::constant_programs_stay;
use printed_constants::{first_uses_have_next, printed_steps_avoid_few_names};
use run_by_steps::progress_follows_steps;
use run_by_steps::step_counts::{counts_come, steps_are_counted};
use splice_laws::import_splices::steps_make_forms;
use stepped_programs::programs_on_the_way::{
    first_uses_come_next, runs_begin, runs_end, steps_stay_on_the_way,
};
use stepped_programs::run_reports::{kept_rows_tell, rows_tell};
use stepped_programs::{
    first_uses_are_steps, found_uses_are_steps, found_uses_may_step, origins_are_told,
    steps_may_be_put, use_steps_go_on,
};

/// What is loaded of a module that is well typed and within the limits begins a run, where it has the form whose constants
/// are inlined, and all its marks are of constants (Go specification, Packages; Constant
/// declarations).
pub fn loaded_programs_begin_runs()
    ensures { LoadedProgramsBeginRuns }
{
    runs_begin();
}

/// The log of the step over the first free use tells where the use comes from in its file as read (Go specification,
/// Operands; Qualified identifiers).
pub fn steps_are_logged()
    ensures { StepsAreLogged }
{
    found_uses_may_step();
    constant_programs_stay();
    first_uses_have_next();
    steps_make_forms();
    origins_are_told();
}

/// The step over the first free use of a program on its run may be made: its new text is read, and the file may be put
/// into the program (Go specification, Constant declarations; Import declarations).
pub fn steps_may_be_taken()
    ensures { StepsMayBeTaken }
{
    steps_are_logged();
    first_uses_come_next();
    kept_rows_tell();
    found_uses_may_step();
    use_steps_go_on();
    steps_may_be_put();
    constant_programs_stay();
    printed_steps_avoid_few_names();
    progress_follows_steps();
    counts_come();
    steps_are_counted();
}

/// Once it is made it is the next step of the run, and its row tells of it (`next`), and its package's block has the
/// names that it had (`blocks`); where it passes a limit, the next step of the run does, in that file (`limit`); and
/// where no use is free, the run is at its end (`end`).
pub fn taken_steps_come_next()
    ensures next { TakenStepsComeNext }
    ensures blocks { TakenStepsKeepBlocks }
    ensures limit { LimitsStopRuns }
    ensures end { SettledProgramsEndRuns }
{
    steps_are_logged();
    first_uses_come_next();
    use_steps_go_on();
    steps_stay_on_the_way();
    rows_tell();
    found_uses_are_steps();
    found_uses_may_step();
    constant_programs_stay();
    first_uses_have_next();
    progress_follows_steps();
    first_uses_are_steps();
    runs_end();
}

/// Where a run stops before a limit, as `inline_all` tells it, the module passes that limit: the steps that were made
/// pass none.
pub fn stopped_runs_are_too_large()
    ensures { StoppedRunsAreTooLarge }
{}
