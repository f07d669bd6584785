//! The rows of the uses that a file keeps.

ghost use Rattle.std.specs.Prelude.{◌≡◌, [], IfOk, OnOk};
ghost use Rattle.stepped_programs.specs.RunReports.Kept.{AddsKept, uses_once};
ghost use Rattle.stepped_programs.specs.RunReports.Rows.{IsKeptRow};

use crate::run_reports::files::row_at;
use crate::run_reports::names::name_parts;
use crate::run_reports::spans::SpanSet;
use file_names::Places;
use go_tree::NoMemory;
use pkg_graph::Package;
use programs::OriginTable;
use repeated_parts::use_search::FoundObstacle;
use report_order::{ReportRow, kept_text};
use std::alloc::{AllocError, Global};

/// What the rows of the uses that a file keeps are told by: the packages of its program, where each file of the report
/// stands by its path, the path of the file, and where the names in the file come from.
#[derive(Clone, Copy)]
pub(crate) struct KeptFile<'a> {
    pub(crate) packages: &'a [Package],
    pub(crate) files: &'a Places,
    pub(crate) path: &'a [u8],
    pub(crate) origins: &'a OriginTable,
}

/// The row of a use that is kept. An error where memory is refused, or where the use has no byte, no name there comes
/// from the file as read, the packages have no such constant, or the report has no such file.
fn kept_row(alloc: Global, file: &KeptFile, kept: &FoundObstacle) -> Result<ReportRow, NoMemory>
    ensures { IfOk result (IsKeptRow file.now.packages.now file.now.files.now file.now.path.now
        file.now.origins.now kept.now) }
{
    let span = kept.use_.span;
    if span.start >= span.end {
        return Err(AllocError);
    }
    let Some(origin) = file.origins.find(span) else {
        return Err(AllocError);
    };
    let parts = name_parts(alloc, file.packages, kept.use_.mark)?;
    let told = kept_text(alloc, parts.home, parts.name, &kept.obstacle)?;
    let row = row_at(file.files, file.path, origin.start, told)?;
    Ok(row)
}

/// Adds the rows of the uses that a file keeps: of those at one span that of the first. An error as `kept_row`.
pub(crate) fn add_kept(
    alloc: Global,
    file: &KeptFile,
    kept: &[FoundObstacle],
    rows: &mut Vec<ReportRow>,
) -> Result<(), NoMemory>
    ensures { OnOk result (AddsKept file.now.packages.now file.now.files.now file.now.path.now file.now.origins.now
        (uses_once [] kept.now) rows.old.items rows.new.items) }
{
    let mut spans = SpanSet::new(alloc);
    for found in kept {
        let is_new = spans.add(found.use_.span)?;
        if !is_new {
            continue;
        }
        let row = kept_row(alloc, file, found)?;
        rows.push(row)?;
    }
    Ok(())
}
