//! Laws of steps and of the cycles of marked functions.

ghost use Rattle.order_runs.specs.CycleRuns.StepCycles.Laws.{AliasStepsKeepCycles, AlikePackagesReadAlike};
ghost use Rattle.order_runs.specs.CycleRuns.StepCycles.Laws.{CallsGiveWay};
ghost use Rattle.order_runs.specs.CycleRuns.StepCycles.Laws.{ConstantStepsKeepCycles, OwnConstantStepsKeepCycles};
ghost use Rattle.order_runs.specs.CycleRuns.StepCycles.Laws.{QualifiedConstantStepsKeepCycles, ReroutedEdgesKeepCycles};
ghost use Rattle.order_runs.specs.CycleRuns.StepCycles.Laws.{RunsKeepCycles};
ghost use Rattle.order_runs.specs.CycleRuns.StepCycles.Laws.{StepsDeclareTheSame, StepsKeepCycles, StepsReadAlike};

/// A step that changes no imports, and puts what has the same facts, leaves packages that declare the same in the same
/// places; and packages that declare the same read calls alike.
pub fn steps_read_calls_alike()
    ensures packages { AlikePackagesReadAlike }
    ensures declared { StepsDeclareTheSame }
    ensures reads { StepsReadAlike }
{}

/// Such a step keeps which marked functions lie on a cycle, if what it puts calls what stood there, but that what was
/// used, which lies on no cycle, gives way to what it leads to; so do any number of such steps. A step over a constant
/// does so, and one over an alias in a type.
pub fn steps_keep_cycles()
    ensures kept { StepsKeepCycles }
    ensures runs { RunsKeepCycles }
    ensures constants { ConstantStepsKeepCycles }
    ensures own { OwnConstantStepsKeepCycles }
    ensures qualified { QualifiedConstantStepsKeepCycles }
    ensures aliases { AliasStepsKeepCycles }
{}

/// Where an edge to a function that lies on no cycle gives way to the edges of that function, the same functions lie on
/// cycles; and what a step puts for a call gives way so, if it calls what the function calls.
pub fn calls_give_way()
    ensures edges { ReroutedEdgesKeepCycles }
    ensures calls { CallsGiveWay }
{}
