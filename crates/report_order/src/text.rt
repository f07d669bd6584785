//! The lines of a report.

ghost use Rattle.std.specs.Prelude.{◌≡◌, ◌≤◌, ℕ, All, IfOk, Some, length, slice_get};
ghost use Rattle.report_order.specs.Order.{LieWithin};
ghost use Rattle.report_order.specs.Rows.{items_in, report_from, row};
ghost use Rattle.report_order.specs.declared.text.ReportSource as source;

use crate::order::sort_items;
use crate::rows::{ItemRows, ReportRow, file_items};
use go_tree::{MAX_FILE_BYTES, NoMemory, Text};
use report_lines::report_lines;
use std::alloc::Global;

/// A file of a report: its path, and its text as read.
#[derive(Clone, Copy)]
pub struct ReportSource<'a> {
    pub path: &'a [u8],
    pub text: &'a [u8],
}

/// The lines of the files, of which this is told.
fn table_text(alloc: Global, files: &[ReportSource], table: &mut ItemRows) -> Result<Text, NoMemory>
    requires small { All (λ f. length f.text.now ≤ MAX_FILE_BYTES) files.now }
    requires count { length table.old ≡ length files.now }
    requires within { (k : ℕ) (f : source.ReportSource) → slice_get files.now k ≡ Some f
        → LieWithin (length f.text.now) (row table.old k) }
    ensures { IfOk result (λ t. t ≡ report_from 0 files.now (row table.old)) }
{
    let mut out = Vec::new(alloc);
    for (k, file) in files.iter().enumerate() {
        let mut items = table.take(alloc, k);
        sort_items(&mut items)?;
        let lines = report_lines(alloc, file.path, file.text, &items)?;
        out.extend_from_slice(lines.items())?;
    }
    Ok(Text::of(out))
}

/// The lines of these files, one file after the other: of each what its rows tell, by their offsets; those of one place
/// keep their order. Rows of files that aren't there tell nothing. Linear in the texts; the rows are sorted. An error
/// where memory is refused.
pub fn report_text(
    alloc: Global,
    files: &[ReportSource],
    rows: Vec<ReportRow>,
) -> Result<Text, NoMemory>
    requires small { All (λ f. length f.text.now ≤ MAX_FILE_BYTES) files.now }
    requires within { (k : ℕ) (f : source.ReportSource) → slice_get files.now k ≡ Some f
        → LieWithin (length f.text.now) (items_in k rows.items) }
    ensures { IfOk result (λ t. t ≡ report_from 0 files.now (λ k. items_in k rows.items)) }
{
    let mut table = file_items(alloc, files.len(), rows)?;
    let text = table_text(alloc, files, &mut table)?;
    Ok(text)
}
