//! Laws of reports of runs.

ghost use Rattle.stepped_programs.specs.RunReports.Laws.{BadRowsTell, KeptRowsTell, ProgramsMayBeTold, ReportsAreOfRuns};
ghost use Rattle.stepped_programs.specs.RunReports.Laws.{StepRowsTell};

use crate::{
    files_are_searched_in_order, kept_uses_are_told_once, origins_are_told, programs_are_held,
    searches_settle_files,
};
use constant_modules::typed_uses::constant_uses_are_expressions;
use repeated_parts::use_search::uses_are_placed;
use report_order::steps_lie_in_files;

/// The row of the step over the first use that the run takes tells of that step, wherever it is told from (`step`); the
/// rows of marks that mean nothing tell of them (`bad`).
pub fn rows_tell()
    ensures step { StepRowsTell }
    ensures bad { BadRowsTell }
{}

/// A program that is kept may be asked for the uses that it keeps (`may`), and on the way of a run, where none of its
/// uses is free, the rows that are added tell of just those: file by file in the order of the run, each with its
/// obstacle and where it comes from in the file as read (`rows`).
pub fn kept_rows_tell()
    ensures may { ProgramsMayBeTold }
    ensures rows { KeptRowsTell }
{
    constant_uses_are_expressions();
    files_are_searched_in_order();
    kept_uses_are_told_once();
    origins_are_told();
    programs_are_held();
    searches_settle_files();
    uses_are_placed();
}

/// So what `run_report` answers at the end of a run is its report: a line for each step, for each use that is kept and
/// for each mark that means nothing, by path and by place in the files as read.
pub fn reports_are_of_runs()
    ensures { ReportsAreOfRuns }
{
    kept_rows_tell();
    rows_tell();
    steps_lie_in_files();
}
