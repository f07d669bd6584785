//! Laws of the use that a step replaces.

ghost use Rattle.order_runs.specs.CycleRuns.FoundUses.Laws.{StepsUseNoRecursive};

/// What a step uses lies on no cycle of marked functions: a call of one that does has an obstacle in
/// each form.
pub fn steps_use_no_recursive()
    ensures { StepsUseNoRecursive }
{}
