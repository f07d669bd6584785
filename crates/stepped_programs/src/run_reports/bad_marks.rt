//! The rows of marks that mean nothing.

ghost use Rattle.std.specs.Prelude.{IfOk, OnOk};
ghost use Rattle.stepped_programs.specs.RunReports.Rows.{AddsRow, InTurn, IsBadRow};

use crate::run_reports::files::row_at;
use file_names::Places;
use go_tree::NoMemory;
use module_marks::BadMarkAt;
use report_order::{ReportRow, bad_text};
use std::alloc::Global;

/// The row of a mark that means nothing.
fn bad_row(alloc: Global, files: &Places, bad: &BadMarkAt) -> Result<ReportRow, NoMemory>
    ensures { IfOk result (IsBadRow files.now bad.now) }
{
    let told = bad_text(alloc, bad.mark.reason)?;
    let row = row_at(files, bad.path.items(), bad.mark.at, told)?;
    Ok(row)
}

/// Adds the rows of marks that mean nothing, in their order; `files` says where each file of the report stands by its
/// path. An error where memory is refused, or where the report has no such file.
pub fn add_bad_marks(
    alloc: Global,
    files: &Places,
    bad: &[BadMarkAt],
    rows: &mut Vec<ReportRow>,
) -> Result<(), NoMemory>
    ensures { OnOk result (InTurn (AddsRow (IsBadRow files.now)) bad.now rows.old.items rows.new.items) }
{
    for mark in bad {
        let row = bad_row(alloc, files, mark)?;
        rows.push(row)?;
    }
    Ok(())
}
