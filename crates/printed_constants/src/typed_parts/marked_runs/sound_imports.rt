//! The laws of the imports of files around a step.

ghost use Rattle.printed_constants.specs.TypedParts.MarkedRuns.SoundImports.Laws.{AddedImportsMayBeDeclared};
ghost use Rattle.printed_constants.specs.TypedParts.MarkedRuns.SoundImports.Laws.{SettledImportsMayBeDeclared};

/// In a well-typed program each import of each file may be declared, as import_steps asks (`MayBeDeclared`), also once
/// the imports of a step's form are added to the file of its use: their names are new.
pub fn added_imports_may_be_declared()
    ensures { AddedImportsMayBeDeclared }
{}

/// So may each import after such a step, which settles its file: a name stands there no more often than before, with the
/// step's imports added.
pub fn settled_imports_may_be_declared()
    ensures { SettledImportsMayBeDeclared }
{}
