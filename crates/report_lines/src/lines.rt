//! The lines of a report over one file.

ghost use Rattle.std.specs.Prelude.{◌≡◌, ◌≤◌, ◌++◌, IfOk, OnOk, decimal, length};
ghost use Rattle.report_lines.specs.Lines.{StandInOrder, line_at, lines_of, place_at};

use crate::places::place_after;
use go_tree::{MAX_FILE_BYTES, NoMemory, Place, Text};
use itoa::Buffer;
use std::alloc::Global;

/// What has a line: the byte of the file as read of which it is told, and what is told.
#[derive(Drop)]
pub struct ReportItem {
    pub offset: u32,
    pub told: Text,
}

fn push_number(out: &mut Vec<u8>, n: u32) -> Result<(), NoMemory>
    ensures { OnOk result (out.new.items ≡ out.old.items ++ decimal n) }
{
    let mut buffer = Buffer::new();
    out.extend_from_slice(buffer.format(n).as_bytes())
}

/// Adds `PATH:LINE:COL`.
fn push_place(out: &mut Vec<u8>, path: &[u8], place: Place) -> Result<(), NoMemory>
    ensures { OnOk result (out.new.items ≡ out.old.items ++ place_at path.now place) }
{
    out.extend_from_slice(path)?;
    out.extend_from_slice(b":")?;
    push_number(out, place.line)?;
    out.extend_from_slice(b":")?;
    push_number(out, place.col)?;
    Ok(())
}

/// Adds a line.
fn push_line(out: &mut Vec<u8>, path: &[u8], place: Place, told: &[u8]) -> Result<(), NoMemory>
    ensures { OnOk result (out.new.items ≡ out.old.items ++ line_at path.now place told.now) }
{
    push_place(out, path, place)?;
    out.extend_from_slice(told)?;
    out.extend_from_slice(b"\n")?;
    Ok(())
}

/// The lines of these items of the file with this path and this text, which stand in the order of their offsets: path,
/// line, column, what is told, and a newline. One pass over the text, however many items there are.
pub fn report_lines(
    alloc: Global,
    path: &[u8],
    text: &[u8],
    items: &[ReportItem],
) -> Result<Text, NoMemory>
    requires small { length text.now ≤ MAX_FILE_BYTES }
    requires order { StandInOrder 0 (length text.now) items.now }
    ensures { IfOk result (λ lines. lines ≡ lines_of path.now text.now items.now) }
{
    let mut out = Vec::new(alloc);
    let mut at = 0;
    let mut place = Place { line: 1, col: 1 };
    for item in items {
        place = place_after(text, at, place, item.offset);
        at = item.offset;
        push_line(&mut out, path, place, item.told.items())?;
    }
    Ok(Text::of(out))
}
