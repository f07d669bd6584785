//! Laws of other imports of a file.

ghost use Rattle.order_runs.specs.CycleRuns.ImportCycles.Laws.{BodiesCallAlike, OtherImportsKeepCycles};
ghost use Rattle.order_runs.specs.CycleRuns.ImportCycles.Laws.{OtherImportsReadAlike};
ghost use Rattle.order_runs.specs.CycleRuns.ImportCycles.Laws.{NewNamesMeanNothingElse, SameImportsMeanTheSame};
ghost use Rattle.order_runs.specs.CycleRuns.ImportCycles.Laws.{OtherImportsDeclareTheSame, SettledNamesMeanTheSame};
ghost use Rattle.order_runs.specs.CycleRuns.ImportCycles.Laws.{StepsWithImportsKeepCycles};

/// Under other imports of its file a body calls the same, where each of its identifiers means the same; and programs
/// that differ by what their files import read calls alike, where each identifier of their declarations does.
pub fn other_imports_call_alike()
    ensures bodies { BodiesCallAlike }
    ensures programs { OtherImportsReadAlike }
{}

/// An identifier means the same where it is the name of the same import of its file, or of none; so it does
/// once a step's imports are added, if none of them has its name, and once they are settled. Programs of
/// the same declarations declare the same then, where packages stand in the same dependency order.
pub fn imports_by_their_names()
    ensures same { SameImportsMeanTheSame }
    ensures added { NewNamesMeanNothingElse }
    ensures settled { SettledNamesMeanTheSame }
    ensures declared { OtherImportsDeclareTheSame }
{}

/// So programs in which the same declarations stand have the same cycles of marked functions; and so do the programs
/// before and after a step that adds and removes imports.
pub fn other_imports_keep_cycles()
    ensures kept { OtherImportsKeepCycles }
    ensures with_imports { StepsWithImportsKeepCycles }
{}
