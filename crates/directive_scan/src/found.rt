//! The items whose marks hold, as good marks and as bad ones, and the marks that hold for nothing.

ghost use Rattle.std.specs.Prelude.{◌≡◌, filter_map, map, IfOk};
ghost use Rattle.directive_scan.specs.Marked.{mark_by, bad_by, bad_at};
ghost use Rattle.directive_scan.specs.Tables.{line_numbers, flagged, unflagged};

use crate::items::Item;
use crate::line_flags::{flag_at, has_flag};
use crate::mark_lines::is_mark;
use crate::mark_types::{BadMark, BadReason, Mark, Verdict};
use go_tree::{Comment, Name, NoMemory};
use std::alloc::Global;

/// The good marks of the items that start on a line whose flag is set.
pub(crate) fn good_of(
    alloc: Global,
    text: &[u8],
    numbers: &[u32],
    led: &[bool],
    items: &[Item],
) -> Result<Vec<Mark>, NoMemory>
    requires numbered { numbers.now ≡ line_numbers 0 text.now }
    ensures { IfOk result (λ marks. marks.items
        ≡ filter_map (λ i. mark_by i.name i.verdict) (flagged text.now led.now items.now)) }
{
    let mut marks = Vec::new(alloc);
    for item in items {
        if has_flag(text, numbers, led, item) {
            if let Verdict::Good(kind) = item.verdict {
                marks.push(Mark {
                    decl: item.decl,
                    name: Name::copied(alloc, item.name.items())?,
                    kind,
                })?;
            }
        }
    }
    Ok(marks)
}

/// The bad marks of the items that start on a line whose flag is set.
pub(crate) fn bad_of(
    alloc: Global,
    text: &[u8],
    numbers: &[u32],
    led: &[bool],
    items: &[Item],
) -> Result<Vec<BadMark>, NoMemory>
    requires numbered { numbers.now ≡ line_numbers 0 text.now }
    ensures { IfOk result (λ marks. marks.items
        ≡ filter_map (λ i. bad_by i.name i.verdict) (flagged text.now led.now items.now)) }
{
    let mut marks = Vec::new(alloc);
    for item in items {
        if has_flag(text, numbers, led, item) {
            if let Verdict::Bad(reason) = item.verdict {
                marks.push(BadMark {
                    at: item.decl.start,
                    reason,
                })?;
            }
        }
    }
    Ok(marks)
}

/// The mark of a comment that means nothing.
fn nothing_at(comment: &Comment) -> BadMark
    ensures { result ≡ bad_at comment.now }
{
    BadMark {
        at: comment.span.start,
        reason: BadReason::NothingMarked,
    }
}

/// The bad marks of the comments that make a mark line whose flag is not set.
pub(crate) fn nothing_of(
    alloc: Global,
    text: &[u8],
    numbers: &[u32],
    leading: &[bool],
    comments: &[Comment],
) -> Result<Vec<BadMark>, NoMemory>
    requires numbered { numbers.now ≡ line_numbers 0 text.now }
    ensures { IfOk result (λ marks. marks.items ≡ map bad_at (unflagged text.now leading.now comments.now)) }
{
    let mut marks = Vec::new(alloc);
    for comment in comments {
        if is_mark(text, comment) && !flag_at(text, numbers, leading, comment.span.start) {
            marks.push(nothing_at(comment))?;
        }
    }
    Ok(marks)
}
