//! Laws of imports among packages.

ghost use Rattle.constant_steps.specs.FormImports.ImportLaws.GraphNames.{FilesMaySettle, ImportsMeanAlike};
ghost use Rattle.constant_steps.specs.FormImports.ImportLaws.GraphNames.{NamesMeanAfterwards};
ghost use Rattle.constant_steps.specs.FormImports.ImportLaws.Steps.{RemovedAreUnused, StepNamesMean};

/// A module's graph gives what the calls for imports are to be told of a file: its names are those of its imports, and
/// its text reads as the file. An import that a name means by them is the one that it means among packages. So the
/// names that are needed at a place mean their packages there once the imports are settled, where what is needed is
/// used afterwards.
pub fn graph_files_may_be_settled()
    ensures told { FilesMaySettle }
    ensures alike { ImportsMeanAlike }
    ensures mean { NamesMeanAfterwards }
{}

/// The specs that a step of a run removes are those that were used before it and aren't afterwards. The names that its
/// form has for packages mean these at its place, with the imports as they are settled, where the file uses what they
/// mean once the form is in its place.
pub fn steps_settle_imports()
    ensures removed { RemovedAreUnused }
    ensures mean { StepNamesMean }
{}
