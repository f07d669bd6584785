//! The laws of what a plan takes from a run.

ghost use Rattle.run_plans.specs.PlannedFiles.Laws.{ChangesAreThoseOfRuns, LastTextsAreThoseOfRuns, LimitsAreToldOfReadFiles};

/// The last texts of a program to which a run has come are those of the run's files (`texts`), so the files that are
/// changed are those of which the bytes differ then (`changes`) (Go specification, Packages; Source file organization).
pub fn last_texts_are_those_of_runs()
    ensures texts { LastTextsAreThoseOfRuns }
    ensures changes { ChangesAreThoseOfRuns }
{}

/// Where a run passes a limit, the file was read, so `file_limit` may be called for it (Go specification, Packages;
/// Source file organization).
pub fn limits_are_told_of_read_files()
    ensures { LimitsAreToldOfReadFiles }
{}
