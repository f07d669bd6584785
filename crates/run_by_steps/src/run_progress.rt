//! Laws of the counts of a run.

ghost use Rattle.run_by_steps.specs.RunProgress.Laws.{OriginsAreCounted, ReadPathsAreApart, RunsKeepPathsApart};
ghost use Rattle.run_by_steps.specs.RunProgress.Laws.{StepsComeNext, StepsKeepPathsApart, TotalsFollow};

/// No two texts of a module that reads have one path; each step keeps that, and so does each run.
pub fn paths_stay_apart()
    ensures read { ReadPathsAreApart }
    ensures kept { StepsKeepPathsApart }
    ensures runs { RunsKeepPathsApart }
{}

/// What a step changes of the bytes of a module is what it changes of the bytes of its file. So the counts before a
/// step are those with which `next_file` looks for the limits that the step passes, and those after it follow: one step
/// more of its origin, and the file's new bytes instead of the old ones.
pub fn progress_follows_steps()
    ensures totals { TotalsFollow }
    ensures next { StepsComeNext }
    ensures origins { OriginsAreCounted }
{}
