//! Laws of reports over several files.

ghost use Rattle.report_order.specs.ReportFiles.Laws.{EntriesAreByFile, FilesHaveTheirItems, ReportsAreByFile};
ghost use Rattle.report_order.specs.ReportFiles.Laws.{ReadPathsAscend, StepsLieInFiles};

/// What a report says are the lines of one file after the other, each those of its own entries by their offsets. The
/// files stand in the order of their paths, as a module's do. The items of a file stand in order, so report_lines may be
/// called for each, if each lies within the file's text.
pub fn reports_are_by_file()
    ensures entries { EntriesAreByFile }
    ensures report { ReportsAreByFile }
    ensures items { FilesHaveTheirItems }
{}

/// The texts of a module that reads stand in the order of their paths, and the steps of a run are told of these files.
pub fn steps_lie_in_files()
    ensures read { ReadPathsAscend }
    ensures steps { StepsLieInFiles }
{}
