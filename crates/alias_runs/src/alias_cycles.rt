//! Laws of steps over aliases and the cycles of marked functions.

ghost use Rattle.alias_runs.specs.AliasCycles.Laws.{AliasStepsGiveWay, AliasStepsKeepCycles};
ghost use Rattle.alias_runs.specs.AliasCycles.Laws.{AliasFormsStand, RunsKeepCycles};

/// In packages that are well typed, with the imports of its form added, what a step over an alias puts
/// has the facts of the alias, wherever the rounds of declarations end (`stands`), and calls nothing,
/// as what stood there (`gives_way`). So the step keeps which marked functions lie on a cycle
/// (`kept`), and so does a run of such steps and of others that give way (`runs`).
pub fn alias_steps_keep_cycles()
    ensures stands { AliasFormsStand }
    ensures gives_way { AliasStepsGiveWay }
    ensures kept { AliasStepsKeepCycles }
    ensures runs { RunsKeepCycles }
{}
