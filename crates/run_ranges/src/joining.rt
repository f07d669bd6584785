//! A range of the text as it is, joined with those that it touches.

ghost use Rattle.std.specs.Prelude.{◌≡◌, IfOk, List};
ghost use Rattle.text_edits.specs.declared.edit.Edit.{Edit};
ghost use Rattle.text_edits.specs.Joined.{joined};
ghost use Rattle.run_ranges.specs.Ranges.{AreRanges, range_of};
ghost use Rattle.run_ranges.specs.Walks.{HasRoom, at_first, joined_on};

use crate::ranges::{ChangedRange, Walk, begins, joint, met};
use go_tree::NoMemory;
use std::alloc::Global;

/// The ranges with one more, which is joined with those that it touches.
fn joined_ranges(
    alloc: Global,
    made: &[ChangedRange],
    next: ChangedRange,
) -> Result<Vec<ChangedRange>, NoMemory>
    requires { HasRoom next 0 0 made.now }
    ensures { IfOk result (λ rs. rs.items ≡ joined_on next at_first made.now) }
{
    let mut joined = Vec::new(alloc);
    let mut walk = Walk {
        from: 0,
        at: 0,
        start: None,
        before: 0,
    };
    for (i, range) in made.iter().enumerate() {
        let first = begins(walk, *range);
        let ends = first + range.length;
        if ends < next.start {
            joined.push(*range)?;
            walk.from = range.end;
            walk.at = ends;
        } else if next.end < first {
            joined.push(joint(walk, next))?;
            joined.extend_from_slice(&made[i..])?;
            return Ok(joined);
        } else {
            walk = met(walk, next, *range);
        }
    }
    joined.push(joint(walk, next))?;
    Ok(joined)
}

/// The ranges of a file as read that edits changed, with that of one more edit of the text as it is: joined with all
/// that it touches, it is a range of the file as read too, and no two ranges touch. `next` has the range of the edit in
/// the text as it is, and how many bytes it writes.
///
/// The ranges are in order, and the text, with the bytes that the edit writes, has less than 4 GiB, as has the file as
/// read. Linear in the ranges. An error where memory is refused.
pub fn join(
    alloc: Global,
    made: &[ChangedRange],
    next: ChangedRange,
) -> Result<Vec<ChangedRange>, NoMemory>
    requires { HasRoom next 0 0 made.now }
    ensures { IfOk result (λ rs. (es : List Edit) (e : Edit) → AreRanges es made.now → range_of e ≡ next
        → AreRanges (joined e es) rs.items) }
{
    let joined = joined_ranges(alloc, made, next)?;
    Ok(joined)
}
