//! Laws of verdicts.

ghost use Rattle.fix_run.specs.Laws.{VerdictsAreAlike};

use run_plans::planned_modules::one_answer_at_most;

/// Words and files have one verdict: its status, its files and what is written, but for the words of a refusal.
pub fn one_verdict_at_most()
    ensures { VerdictsAreAlike }
{
    one_answer_at_most();
}
