//! Laws of the texts of a run.

ghost use Rattle.splice_laws.specs.RunLaws.Laws.{ReadModulesRead, ReadModulesHaveOnePathEach, StepsKeepReading};
ghost use Rattle.splice_laws.specs.RunLaws.Laws.{RunEditsStandApart, ReadFileEditsStandApart};
ghost use Rattle.splice_laws.specs.RunLaws.Laws.{RunsAreInlinings, RunsKeepFiles};

/// The edits of a step ascend, don't overlap and lie in the text, where the file of its use reads from
/// the text; so do those of each step of a run from files that read as a module.
pub fn edits_of_read_files_stand_apart()
    ensures step { ReadFileEditsStandApart }
    ensures run { RunEditsStandApart }
{}

/// Files that read as a module are a program whose files read from their texts as it stands, each under
/// its own path, and a step leaves such a program.
pub fn read_programs_stay_read()
    ensures read { ReadModulesRead }
    ensures paths { ReadModulesHaveOnePathEach }
    ensures stay { StepsKeepReading }
{}

/// A run from files that read as a module keeps each file's bytes outside its ranges; so where no step
/// passes a limit it is all that is asked of an inlined module.
pub fn runs_keep_files()
    ensures keep { RunsKeepFiles }
    ensures inlining { RunsAreInlinings }
{}
