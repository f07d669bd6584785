//! Laws of the calls of literals that stand for calls.

ghost use Rattle.order_runs.specs.CycleRuns.LiteralCalls.Laws.{LiteralsCallThrough, LiteralStepsKeepCycles};
ghost use Rattle.order_runs.specs.CycleRuns.LiteralCalls.Laws.{OnlyCallsCallThrough};

/// A literal of a function, put for a call that names it, calls what the function leads to and what the
/// call's arguments do, and nothing else; so where at a use's span the call alone stands, all that a step
/// puts calls what stood there, or what the function calls, and the step keeps which marked functions lie
/// on a cycle.
pub fn literals_call_through()
    ensures literals { LiteralsCallThrough }
    ensures puts { OnlyCallsCallThrough }
    ensures kept { LiteralStepsKeepCycles }
{}
