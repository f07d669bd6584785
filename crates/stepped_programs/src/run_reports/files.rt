//! Rows by the paths of their files.

ghost use Rattle.std.specs.Prelude.{◌≡◌, IfOk};
ghost use Rattle.stepped_programs.specs.RunReports.Rows.{FindsFiles, IsRow};

use file_names::Places;
use go_tree::{NoMemory, Text};
use report_lines::ReportItem;
use report_order::{ReportRow, ReportSource};
use std::alloc::{AllocError, Global};

/// Where each file of a report stands, by its path. The only error is `NoMemory`.
pub fn find_files(alloc: Global, files: &[ReportSource]) -> Result<Places, NoMemory>
    ensures { IfOk result (λ places. FindsFiles places files.now) }
{
    let mut places = Places::new(alloc);
    for (place, file) in files.iter().enumerate() {
        places.push(alloc, file.path, place)?;
    }
    Ok(places)
}

/// The row of what is told at this offset of the file with this path; an error where no file has the path.
pub(crate) fn row_at(
    files: &Places,
    path: &[u8],
    offset: u32,
    told: Text,
) -> Result<ReportRow, NoMemory>
    ensures { IfOk result (IsRow files.now path.now offset told) }
{
    let Some(file) = files.find(path) else {
        return Err(AllocError);
    };
    Ok(ReportRow {
        file,
        item: ReportItem { offset, told },
    })
}
