//! The laws of the files that a run leaves.

ghost use Rattle.printed_constants.specs.InlinedFiles.Laws as law;

/// The package of a use may import each package whose import a step adds: where it may not, no form is free (the go
/// command's documentation, Internal Directories).
pub fn added_imports_are_allowed()
    ensures { law.AddedImportsAreAllowed }
{}

/// A step that writes its file keeps the name in its package clause, and leaves files that read as a module, from files
/// that do: each folder is a package with one name, each import names a package of the module that isn't `main` and may
/// be imported there, and none leads to a cycle (Go specification, Packages; Package clause; Import declarations).
pub fn steps_leave_modules()
    ensures clauses { law.StepsKeepPackageClauses }
    ensures leave { law.StepsLeaveModules }
{}

/// A module that reads stands as it is read, its files as they were. So each run from it whose steps write their files
/// leaves files that read as a module. And every run from it keeps the bytes outside its ranges, of each file of the
/// folder.
pub fn runs_leave_modules()
    ensures files { law.ReadFilesStay }
    ensures read { law.ReadModulesStand }
    ensures leave { law.RunsLeaveModules }
    ensures keep { law.RunsKeepFolders }
{}
