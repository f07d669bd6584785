//! Two lists of bad marks joined by place.

ghost use Rattle.std.specs.Prelude.{◌≡◌, ◌+◌, ◌≤◌, ◌<◌, drop, length, IfOk};
ghost use Rattle.directive_scan.specs.Marked.{first_comes, placed_in};

use crate::mark_types::BadMark;
use go_tree::NoMemory;
use std::alloc::Global;

/// Whether the next entry of the first list comes before the next one of the other.
#[tactic(auto, using(crate::proofs::MergeLaws::first_laws))]
fn first_comes(firsts: &[BadMark], i: usize, others: &[BadMark], j: usize) -> bool
    requires first { i ≤ length firsts.now }
    requires other { j ≤ length others.now }
    ensures { result ≡ first_comes (drop i firsts.now) (drop j others.now) }
{
    i < firsts.len() && (j == others.len() || firsts[i].at <= others[j].at)
}

/// Both lists as one, by place; of two entries at one place the one of the first list comes first.
#[tactic(auto, using(crate::proofs::MergeLaws::merge_laws))]
pub(crate) fn placed_in(
    alloc: Global,
    firsts: &[BadMark],
    others: &[BadMark],
) -> Result<Vec<BadMark>, NoMemory>
    ensures { IfOk result (λ marks. marks.items ≡ placed_in firsts.now others.now) }
{
    let mut marks = Vec::new(alloc);
    let mut i = 0;
    let mut j = 0;
    'merged: while i < firsts.len() || j < others.len() {
        if first_comes(firsts, i, others, j) {
            marks.push(firsts[i])?;
            i += 1;
        } else {
            marks.push(others[j])?;
            j += 1;
        }
    }
    Ok(marks)
}
