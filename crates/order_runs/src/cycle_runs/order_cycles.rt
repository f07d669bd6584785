//! Laws of steps that add and remove imports.

ghost use Rattle.order_runs.specs.CycleRuns.OrderCycles.Laws.{AliasStepsKeepCycles, ConstantStepsKeepCycles};
ghost use Rattle.order_runs.specs.CycleRuns.OrderCycles.Laws.{FewNamesAreFresh, ListedNamesAreFew};
ghost use Rattle.order_runs.specs.CycleRuns.OrderCycles.Laws.{OrdersDeclareTheSame, RunsKeepCycles, StepsAddNewNames};
ghost use Rattle.order_runs.specs.CycleRuns.OrderCycles.Laws.{StepsKeepCycles, StepsPutTheSame, StepsSettleImports};

/// Programs of the same declarations under other imports declare what is found the same, in
/// whatever order their packages stand, if each identifier is the name of the same import, or of
/// none.
pub fn orders_declare_the_same()
    ensures { OrdersDeclareTheSame }
{}

/// Where the names that a step avoids stand among few, each counted once, the imports that it adds
/// have the first names that are new (`fresh`), so it is where the names to avoid are few as they
/// are listed, each as often as it stands (`listed`). So they have names that no identifier of its
/// file has; so its form is put where it is put with them added.
pub fn steps_add_new_names()
    ensures fresh { FewNamesAreFresh }
    ensures listed { ListedNamesAreFew }
    ensures added { StepsAddNewNames }
    ensures same { StepsPutTheSame }
{}

/// A step whose form has the same facts with its imports added, and calls what stood there, but
/// that what was used gives way to what it leads to, keeps which marked functions lie on a cycle;
/// so do any number of such steps. A step over a constant does so, and one over an alias in a type.
pub fn linked_steps_keep_cycles()
    ensures settled { StepsSettleImports }
    ensures kept { StepsKeepCycles }
    ensures runs { RunsKeepCycles }
    ensures constants { ConstantStepsKeepCycles }
    ensures aliases { AliasStepsKeepCycles }
{}
