//! The report of a run.

ghost use Rattle.std.specs.Prelude.{◌≡◌, ◌≤◌, All, IfOk, length};
ghost use Rattle.std.specs.List.{list_all};
ghost use Rattle.stepped_programs.specs.RunReports.Kept.{MayBeTold};
ghost use Rattle.stepped_programs.specs.RunReports.Reports.{IsReport, is_within};

use crate::run_reports::bad_marks::add_bad_marks;
use crate::run_reports::program_uses::add_kept_uses;
use file_names::Places;
use go_tree::{MAX_FILE_BYTES, NoMemory, Text};
use programs::Program;
use report_order::{ReportRow, ReportSource, report_text};
use std::alloc::{AllocError, Global};

/// Whether the row tells of no byte past the end of its file.
fn is_within(files: &[ReportSource], row: &ReportRow) -> bool
    ensures { result ≡ is_within files.now row.now }
{
    match files.get(row.file) {
        None => true,
        Some(file) => row.item.offset as usize <= file.text.len(),
    }
}

/// Whether all rows do so.
fn are_within(files: &[ReportSource], rows: &[ReportRow]) -> bool
    ensures { result ≡ list_all (is_within files.now) rows.now }
{
    for row in rows {
        if !is_within(files, row) {
            return false;
        }
    }
    true
}

/// The report of a run whose steps have these rows (`step_row`) and which ended in this program: of the steps, of the
/// uses that the program keeps, and of its marks that mean nothing. `files` are the files as read, in the order of
/// their paths, and `places` says where each of them stands (`find_files`). An error where memory is refused; also
/// where a row lies past the end of its file, or as `add_kept_uses`, none of which comes at the end of a run.
///
/// One look at each file of the program, and linear in the texts; the rows are sorted.
pub fn run_report(
    alloc: Global,
    program: &Program,
    files: &[ReportSource],
    places: &Places,
    steps: Vec<ReportRow>,
) -> Result<Text, NoMemory>
    requires told { MayBeTold program.now }
    requires small { All (λ f. length f.text.now ≤ MAX_FILE_BYTES) files.now }
    ensures { IfOk result (IsReport program.now places.now files.now steps.items) }
{
    let mut rows = steps;
    add_kept_uses(alloc, program, places, &mut rows)?;
    add_bad_marks(alloc, places, &program.bad, &mut rows)?;
    let fit = are_within(files, &rows);
    if !fit {
        return Err(AllocError);
    }
    let text = report_text(alloc, files, rows)?;
    Ok(text)
}
