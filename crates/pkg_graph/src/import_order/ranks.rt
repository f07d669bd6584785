//! Ranks of packages, by which most are seen to lie on no cycle of imports. Each round of a walk takes
//! one step off a list; what the walks find is tested afterwards, so nothing rests on it.

ghost use Rattle.std.specs.Prelude.{◌≡◌, ◌<◌, length, IfOk};

use crate::import_order::rows::Rows;
use go_tree::NoMemory;
use std::alloc::Global;

/// Stands for a rank where there is none yet.
const NO_RANK: usize = usize::MAX;

/// Marks a package, and puts it among the steps as one to be left, behind all that it imports.
fn enter(
    links: &Rows,
    k: usize,
    seen: &mut [bool],
    steps: &mut Vec<(usize, bool)>,
) -> Result<(), NoMemory>
    ensures { length seen.new ≡ length seen.old }
{
    if k < links.len() && k < seen.len() && !seen[k] {
        seen[k] = true;
        steps.push((k, true))?;
        for m in links.row(k) {
            steps.push((*m, false))?;
        }
    }
    Ok(())
}

/// Adds the packages that imports lead to from one, as a walk in depth leaves them.
fn leave_from(
    links: &Rows,
    steps: &mut Vec<(usize, bool)>,
    seen: &mut [bool],
    left: &mut Vec<usize>,
) -> Result<(), NoMemory>
    ensures { length seen.new ≡ length seen.old }
{
    for round in 0..u64::MAX {
        let _ = round;
        match steps.pop() {
            None => return Ok(()),
            Some((k, true)) => left.push(k)?,
            Some((k, false)) => enter(links, k, seen, steps)?,
        }
    }
    Ok(())
}

/// The packages as a walk in depth leaves them.
fn left_in_turn(alloc: Global, links: &Rows) -> Result<Vec<usize>, NoMemory> {
    let mut seen = vec![in alloc; false; links.len()]?;
    let mut left = Vec::new(alloc);
    let mut steps = Vec::new(alloc);
    for k in 0..links.len() {
        steps.push((k, false))?;
        leave_from(links, &mut steps, &mut seen, &mut left)?;
    }
    Ok(left)
}

/// For each package those that import it.
fn importers(alloc: Global, links: &Rows) -> Result<Rows, NoMemory> {
    let mut rows = Rows::new(alloc, links.len())?;
    for k in 0..links.len() {
        for m in links.row(k) {
            if *m < rows.len() {
                rows.add(*m, k)?;
            }
        }
    }
    Ok(rows)
}

/// Gives the rank to each package without one from which imports lead to those of the walk.
fn rank_from(
    importers: &Rows,
    walk: &mut Vec<usize>,
    rank: usize,
    ranks: &mut [usize],
) -> Result<(), NoMemory>
    ensures { length ranks.new ≡ length ranks.old }
{
    for round in 0..u64::MAX {
        let _ = round;
        let Some(k) = walk.pop() else {
            return Ok(());
        };
        if k < importers.len() && k < ranks.len() && ranks[k] == NO_RANK {
            ranks[k] = rank;
            for m in importers.row(k) {
                walk.push(*m)?;
            }
        }
    }
    Ok(())
}

/// A rank for each package: two that imports lead to and fro between have one, and no import leads to
/// a lower one. Linear in packages and imports.
pub(crate) fn ranks(alloc: Global, links: &Rows) -> Result<Vec<usize>, NoMemory>
    ensures { IfOk result (λ ranks. length ranks.items ≡ length links.now) }
{
    let left = left_in_turn(alloc, links)?;
    let importers = importers(alloc, links)?;
    let mut ranks = vec![in alloc; NO_RANK; links.len()]?;
    let mut walk = Vec::new(alloc);
    for i in 0..left.len() {
        walk.push(left[left.len() - 1 - i])?;
        rank_from(&importers, &mut walk, i, &mut ranks)?;
    }
    Ok(ranks)
}
