//! Laws of a run as its steps are made.

ghost use Rattle.run_by_steps.specs.Laws.{RunEnds, StepGoesOn, StepIsRead, StepPassesLimit};

/// What `next_file` answers of the next step of a run. A file: with it the run has reached the next program, and no step
/// so far passes a limit. A limit: the run is too large, by that limit. That the new text isn't read: never.
pub fn run_goes_on()
    ensures file { StepGoesOn }
    ensures limit { StepPassesLimit }
    ensures never { StepIsRead }
{}

/// Where no use is free any more, the texts that are reached are those of the inlined module, with its report.
pub fn run_ends()
    ensures { RunEnds }
{}
