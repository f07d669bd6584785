//! Laws of the counts of a run.

ghost use Rattle.run_by_steps.specs.StepCounts.Laws.{CountsCome, NoneAreCounted, OriginsWithinSteps};
ghost use Rattle.run_by_steps.specs.StepCounts.Laws.{StepsAreCounted, TextsLieWithin};

/// Before a run no steps are counted; a step counts for its origin alone, and so the counts stay those of the run. No
/// origin has more steps than the run.
pub fn steps_are_counted()
    ensures none { NoneAreCounted }
    ensures step { StepsAreCounted }
    ensures within { OriginsWithinSteps }
{}

/// By the counts a run has come so far before its next step as its limits ask (run_progress), where the bytes of its
/// texts are known too; no text has more of them.
pub fn counts_come()
    ensures come { CountsCome }
    ensures texts { TextsLieWithin }
{}
