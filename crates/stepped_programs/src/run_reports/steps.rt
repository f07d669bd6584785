//! The rows of steps.

ghost use Rattle.std.specs.Prelude.{◌≡◌, IfOk};
ghost use Rattle.stepped_programs.specs.RunReports.Rows.{IsStepRow};

use crate::run_reports::files::row_at;
use crate::run_reports::names::{file_at, name_parts};
use file_names::{MarkRef, Places};
use go_tree::NoMemory;
use pkg_graph::Package;
use report_order::{ReportRow, inlined_text};
use std::alloc::{AllocError, Global};

/// A step over a use of a marked constant: the numbers of the package and of the file in which it is made, the offset
/// in this file as read from which the use comes, and the constant.
#[derive(Clone, Copy, Debug)]
pub struct LoggedStep {
    pub package: usize,
    pub file: usize,
    pub offset: u32,
    pub mark: MarkRef,
}

/// The row of a step in a program of these packages, where `files` says where each file of the report stands by its
/// path. An error where memory is refused, or where the packages have no such file or constant or the report has no
/// such file. Linear in the declaration of the constant.
pub fn step_row(
    alloc: Global,
    packages: &[Package],
    files: &Places,
    step: LoggedStep,
) -> Result<ReportRow, NoMemory>
    ensures { IfOk result (IsStepRow packages.now files.now step) }
{
    let Some(source) = file_at(packages, step.package, step.file) else {
        return Err(AllocError);
    };
    let parts = name_parts(alloc, packages, step.mark)?;
    let told = inlined_text(alloc, parts.home, parts.name)?;
    let row = row_at(files, source.path.items(), step.offset, told)?;
    Ok(row)
}
